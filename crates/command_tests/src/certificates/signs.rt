//! Certificates of version 2: texts with signs, each with what it is to its model and test.
use super::judging::Judged;
use crate::memory_runs::Told;
use cert_check::Checked;
use example_texts::{
    BOTH_OR_ONE, EITHER_AND, EITHER_OF_THREE, EITHER_ORDER, EMPTY, ONE, SOME_OP, TWO,
    TWO_FORBIDDEN, UNORDERED,
};

const SIGNED: &[Judged] = &[
    (
        BOTH_OR_ONE,
        ONE,
        &[
            // a split of an And that was denied
            (
                "unobservable\ntest unstated\nversion 2\nsplit 1\nabsent 0.0@0:T\nsplit ~2\nabsent 0.0@0:U\nabsent 0.0@0:U\nend\n",
                Checked::Unobservable,
            ),
            // without its third line the text is of version 1, where nothing is asserted under a sign
            (
                "unobservable\ntest unstated\nsplit 1\nabsent 0.0@0:T\nsplit ~2\nabsent 0.0@0:U\nabsent 0.0@0:U\nend\n",
                Checked::Refused(5),
            ),
            // on the left branch the And is asserted without a sign
            (
                "unobservable\ntest unstated\nversion 2\nsplit 1\nsplit ~2\nsplit ~2\nabsent 0.0@0:U\nabsent 0.0@0:U\nend\n",
                Checked::Refused(5),
            ),
            // the line of the version stands third alone, and once
            (
                "unobservable\ntest unstated\nversion 2\nversion 2\nsplit 1\nabsent 0.0@0:T\nsplit ~2\nabsent 0.0@0:U\nabsent 0.0@0:U\nend\n",
                Checked::Refused(4),
            ),
            (
                "unobservable\nversion 2\ntest unstated\nsplit 1\nabsent 0.0@0:T\nsplit ~2\nabsent 0.0@0:U\nabsent 0.0@0:U\nend\n",
                Checked::Refused(2),
            ),
            (
                "unobservable\ntest unstated\nversion 1\nsplit 1\nabsent 0.0@0:T\nsplit ~2\nabsent 0.0@0:U\nabsent 0.0@0:U\nend\n",
                Checked::Refused(3),
            ),
            (
                "unobservable\ntest unstated\nversion  2\nsplit 1\nabsent 0.0@0:T\nsplit ~2\nabsent 0.0@0:U\nabsent 0.0@0:U\nend\n",
                Checked::Refused(3),
            ),
            // no space stands after the sign, and no zero leads
            (
                "unobservable\ntest unstated\nversion 2\nsplit 1\nabsent 0.0@0:T\nsplit ~ 2\nabsent 0.0@0:U\nabsent 0.0@0:U\nend\n",
                Checked::Refused(6),
            ),
            (
                "unobservable\ntest unstated\nversion 2\nsplit 1\nabsent 0.0@0:T\nsplit ~02\nabsent 0.0@0:U\nabsent 0.0@0:U\nend\n",
                Checked::Refused(6),
            ),
            (
                "unobservable\ntest unstated\nversion 2\nsplit 1\nabsent 0.0@0:T\nsplit ~~2\nabsent 0.0@0:U\nabsent 0.0@0:U\nend\n",
                Checked::Refused(6),
            ),
        ],
    ),
    (
        UNORDERED,
        TWO,
        &[
            // a graph has no version
            (
                "observable\ntest permitted: ok\nversion 2\nnode 0.0@0:S\nnode 1.0@0:S\nend\n",
                Checked::Refused(3),
            ),
        ],
    ),
    (
        SOME_OP,
        EMPTY,
        &[
            // a refutation of the tree False, and none of the tree True
            (
                "unobservable\ntest unstated\nversion 2\nfalse\nend\n",
                Checked::Unobservable,
            ),
            (
                "unobservable\ntest unstated\nversion 2\nsplit ~0\nend\n",
                Checked::Refused(4),
            ),
        ],
    ),
    (
        "",
        EMPTY,
        &[
            (
                "unobservable\ntest unstated\nversion 2\nfalse\nend\n",
                Checked::Refused(4),
            ),
            (
                "unobservable\ntest unstated\nversion 2\nend\n",
                Checked::Refused(4),
            ),
        ],
    ),
    (
        EITHER_AND,
        ONE,
        &[
            // each line of a text with one line spoilt is refused there
            (
                "unobservable\ntest unstated\nversion 2\nsplit 1\nsplit 9\nabsent 0.0@0:U\npath 0.0@0:U 0.0@0:S\nsplit ~2\nabsent 0.0@0:S\npath 0.0@0:U 0.0@0:S\nend\n",
                Checked::Unobservable,
            ),
            (
                "unobserved\ntest unstated\nversion 2\nsplit 1\nsplit 9\nabsent 0.0@0:U\npath 0.0@0:U 0.0@0:S\nsplit ~2\nabsent 0.0@0:S\npath 0.0@0:U 0.0@0:S\nend\n",
                Checked::Refused(1),
            ),
            (
                "unobservable\ntest forbidden: ok\nversion 2\nsplit 1\nsplit 9\nabsent 0.0@0:U\npath 0.0@0:U 0.0@0:S\nsplit ~2\nabsent 0.0@0:S\npath 0.0@0:U 0.0@0:S\nend\n",
                Checked::Refused(2),
            ),
            (
                "unobservable\ntest unstated\nversion 3\nsplit 1\nsplit 9\nabsent 0.0@0:U\npath 0.0@0:U 0.0@0:S\nsplit ~2\nabsent 0.0@0:S\npath 0.0@0:U 0.0@0:S\nend\n",
                Checked::Refused(3),
            ),
            (
                "unobservable\ntest unstated\nversion 2\nsplit ~1\nsplit 9\nabsent 0.0@0:U\npath 0.0@0:U 0.0@0:S\nsplit ~2\nabsent 0.0@0:S\npath 0.0@0:U 0.0@0:S\nend\n",
                Checked::Refused(4),
            ),
            (
                "unobservable\ntest unstated\nversion 2\nsplit 1\nsplit 2\nabsent 0.0@0:U\npath 0.0@0:U 0.0@0:S\nsplit ~2\nabsent 0.0@0:S\npath 0.0@0:U 0.0@0:S\nend\n",
                Checked::Refused(5),
            ),
            (
                "unobservable\ntest unstated\nversion 2\nsplit 1\nsplit 9\nabsent 0.0@0:T\npath 0.0@0:U 0.0@0:S\nsplit ~2\nabsent 0.0@0:S\npath 0.0@0:U 0.0@0:S\nend\n",
                Checked::Refused(6),
            ),
            (
                "unobservable\ntest unstated\nversion 2\nsplit 1\nsplit 9\nabsent 0.0@0:U\npath 0.0@0:S 0.0@0:U\nsplit ~2\nabsent 0.0@0:S\npath 0.0@0:U 0.0@0:S\nend\n",
                Checked::Refused(7),
            ),
            (
                "unobservable\ntest unstated\nversion 2\nsplit 1\nsplit 9\nabsent 0.0@0:U\npath 0.0@0:U 0.0@0:S\nsplit 2\nabsent 0.0@0:S\npath 0.0@0:U 0.0@0:S\nend\n",
                Checked::Refused(8),
            ),
            (
                "unobservable\ntest unstated\nversion 2\nsplit 1\nsplit 9\nabsent 0.0@0:U\npath 0.0@0:U 0.0@0:S\nsplit ~2\nabsent 0.0@0:U\npath 0.0@0:U 0.0@0:S\nend\n",
                Checked::Refused(9),
            ),
            (
                "unobservable\ntest unstated\nversion 2\nsplit 1\nsplit 9\nabsent 0.0@0:U\npath 0.0@0:U 0.0@0:S\nsplit ~2\nabsent 0.0@0:S\npath 0.0@0:S 0.0@0:U\nend\n",
                Checked::Refused(10),
            ),
            (
                "unobservable\ntest unstated\nversion 2\nsplit 1\nsplit 9\nabsent 0.0@0:U\npath 0.0@0:U 0.0@0:S\nsplit ~2\nabsent 0.0@0:S\npath 0.0@0:U 0.0@0:S\nabsent 0.0@0:S\n",
                Checked::Refused(11),
            ),
            // position 5 is asserted there without a sign
            (
                "unobservable\ntest unstated\nversion 2\nsplit 1\nsplit 9\nabsent 0.0@0:U\npath 0.0@0:U 0.0@0:S\nsplit ~5\nabsent 0.0@0:S\npath 0.0@0:U 0.0@0:S\nend\n",
                Checked::Refused(8),
            ),
        ],
    ),
    (
        EITHER_ORDER,
        TWO_FORBIDDEN,
        &[
            // the right branch of a split has the left side under the sign: its literal closes the branch
            (
                "unobservable\ntest forbidden: ok\nversion 2\nsplit 1\npath 0.0@0:S 1.0@0:S\npath 1.0@0:S 0.0@0:S 0.0@0:T\nend\n",
                Checked::Unobservable,
            ),
        ],
    ),
    (
        EITHER_OF_THREE,
        ONE,
        &[
            // of an Or that was denied both sides are, and it is no Or under the sign
            (
                "unobservable\ntest unstated\nversion 2\nsplit 1\nsplit 2\nabsent 0.0@0:S\nabsent 0.0@0:T\nabsent 0.0@0:U\nend\n",
                Checked::Unobservable,
            ),
            (
                "unobservable\ntest unstated\nversion 2\nsplit 1\nsplit 2\nabsent 0.0@0:S\nabsent 0.0@0:T\nsplit ~2\nabsent 0.0@0:U\nabsent 0.0@0:U\nend\n",
                Checked::Refused(8),
            ),
        ],
    ),
];

/// The table, which this function alone names.
pub(crate) fn signed() -> &'static [Judged] {
    SIGNED
}

/// What `check2` writes for a model and a test.
pub(crate) const FOUND: &[Told<'static>] = &[
    (
        &[BOTH_OR_ONE, ONE],
        "unobservable\ntest unstated\nversion 2\nsplit 1\nabsent 0.0@0:T\nabsent 0.0@0:U\nend\n",
    ),
    (
        &[EITHER_ORDER, TWO_FORBIDDEN],
        "unobservable\ntest forbidden: ok\nversion 2\nsplit 1\npath 0.0@0:S 1.0@0:S\npath 1.0@0:S 0.0@0:S 0.0@0:T\nend\n",
    ),
    (
        &[EITHER_AND, ONE],
        "unobservable\ntest unstated\nversion 2\nsplit 1\nsplit 9\nabsent 0.0@0:U\npath 0.0@0:U 0.0@0:S\nsplit ~2\nabsent 0.0@0:S\npath 0.0@0:U 0.0@0:S\nend\n",
    ),
];
