//! Texts of lifted refutations, each with what it is to its model and test.
use example_texts::{BOTH_ORDERS, EMPTY, ITSELF, JOINED, ONE, TWO, TWO_CORES, TWO_FORBIDDEN};
use lifted_check::Lifted;

/// Texts, each with what it is to a model and a test.
pub(crate) type Texts = &'static [(&'static str, Lifted)];

/// A model and a test, and texts.
pub(crate) type Judged = (&'static str, &'static str, Texts);

/// Each micro-op is at S, and is not.
const HERE_AND_NOT: &str = "StageName 0 \"S\".
Axiom \"a\": forall microops \"i\", NodeExists (i, S) /\\ ~NodeExists (i, S).
";

const DENIED_OR: &str = "Axiom \"o\": ~(False \\/ True).
";

const DENIED_IMPLICATION: &str = "Axiom \"i\": ~(False => True).
";

const EITHER_FALSE: &str = "Axiom \"e\": False \\/ ~True.
";

const NEVER_IMPLIED: &str = "Axiom \"n\": True => False.
";

const ALWAYS_IMPLIED: &str = "Axiom \"a\": False => True.
";

const DENIED_AND: &str = "Axiom \"a\": ~(True /\\ True).
";

const A_READ: &str = "Axiom \"r\": exists microop \"i\", IsAnyRead i.
";

const NO_WRITE: &str = "Axiom \"w\": ~exists microop \"i\", IsAnyWrite i.
";

const NOT_ALL_WRITE: &str = "Axiom \"w\": ~forall microop \"i\", IsAnyWrite i.
";

const NO_CORE: &str = "Axiom \"c\": forall cores \"c\", False.
";

const ALL_ARE_READS: &str = "DefineMacro \"read\" \"x\": IsAnyRead x.
Axiom \"r\": forall microops \"i\", ExpandMacro read i.
";

/// An edge, of which one end is denied.
const END_IS_ABSENT: &str = "StageName 0 \"S\".
StageName 1 \"T\".
Axiom \"e\": forall microops \"i\", AddEdge ((i, S), (i, T)) /\\ ~NodeExists (i, T).
";

/// An edge, and a node that is none of its ends is denied.
const OTHER_IS_ABSENT: &str = "StageName 0 \"S\".
StageName 1 \"T\".
StageName 2 \"U\".
Axiom \"e\": forall microops \"i\", AddEdge ((i, S), (i, T)) /\\ ~NodeExists (i, U).
";

/// Facts of an And, a negation and lists.
pub(crate) const PARTS: &[Judged] = &[(
    HERE_AND_NOT,
    ONE,
    &[
        // both sides of an And, a negation, a member, both sides of a denied list, an absent node
        (
            "unobservable\ntest unstated\nlifted\ninst 0 0.0\nleft 1\nright 1\nnot 3\nmember 2 0\nsplit 4\nabsent 6 5\nfalse 6\nend\n",
            Lifted::Unobservable,
        ),
        // a value out of range, of the other sort, and no such fact
        (
            "unobservable\ntest unstated\nlifted\ninst 0 9.0\nleft 1\nright 1\nnot 3\nmember 2 0\nsplit 4\nabsent 6 5\nfalse 6\nend\n",
            Lifted::Refused(4),
        ),
        (
            "unobservable\ntest unstated\nlifted\ninst 0 0\nleft 1\nright 1\nnot 3\nmember 2 0\nsplit 4\nabsent 6 5\nfalse 6\nend\n",
            Lifted::Refused(4),
        ),
        (
            "unobservable\ntest unstated\nlifted\ninst 1 0.0\nleft 1\nright 1\nnot 3\nmember 2 0\nsplit 4\nabsent 6 5\nfalse 6\nend\n",
            Lifted::Refused(4),
        ),
        // no connective; an And that holds has no two sides
        (
            "unobservable\ntest unstated\nlifted\ninst 0 0.0\nleft 0\nright 1\nnot 3\nmember 2 0\nsplit 4\nabsent 6 5\nfalse 6\nend\n",
            Lifted::Refused(5),
        ),
        (
            "unobservable\ntest unstated\nlifted\ninst 0 0.0\nsplit 1\nright 1\nnot 3\nmember 2 0\nsplit 4\nabsent 6 5\nfalse 6\nend\n",
            Lifted::Refused(5),
        ),
        (
            "unobservable\ntest unstated\nlifted\ninst 0 0.0\nleft 1\nright 2\nnot 3\nmember 2 0\nsplit 4\nabsent 6 5\nfalse 6\nend\n",
            Lifted::Refused(6),
        ),
        (
            "unobservable\ntest unstated\nlifted\ninst 0 0.0\nleft 1\nright 1\nnot 2\nmember 2 0\nsplit 4\nabsent 6 5\nfalse 6\nend\n",
            Lifted::Refused(7),
        ),
        // after the list; a member of a denied one
        (
            "unobservable\ntest unstated\nlifted\ninst 0 0.0\nleft 1\nright 1\nnot 3\nmember 2 1\nsplit 4\nabsent 6 5\nfalse 6\nend\n",
            Lifted::Refused(8),
        ),
        (
            "unobservable\ntest unstated\nlifted\ninst 0 0.0\nleft 1\nright 1\nnot 3\nmember 4 0\nsplit 4\nabsent 6 5\nfalse 6\nend\n",
            Lifted::Refused(8),
        ),
        // a list that holds; a single node
        (
            "unobservable\ntest unstated\nlifted\ninst 0 0.0\nleft 1\nright 1\nnot 3\nmember 2 0\nsplit 2\nabsent 6 5\nfalse 6\nend\n",
            Lifted::Refused(9),
        ),
        (
            "unobservable\ntest unstated\nlifted\ninst 0 0.0\nleft 1\nright 1\nnot 3\nmember 2 0\nsplit 5\nabsent 6 5\nfalse 6\nend\n",
            Lifted::Refused(9),
        ),
        (
            "unobservable\ntest unstated\nlifted\ninst 0 0.0\nleft 1\nright 1\nnot 3\nmember 2 0\nleft 5\nabsent 6 5\nfalse 6\nend\n",
            Lifted::Refused(9),
        ),
        (
            "unobservable\ntest unstated\nlifted\ninst 0 0.0\nleft 1\nright 1\nnot 3\nmember 2 0\nright 5\nabsent 6 5\nfalse 6\nend\n",
            Lifted::Refused(9),
        ),
        // no denial; no single node; the denial itself
        (
            "unobservable\ntest unstated\nlifted\ninst 0 0.0\nleft 1\nright 1\nnot 3\nmember 2 0\nsplit 4\nabsent 5 6\nfalse 6\nend\n",
            Lifted::Refused(10),
        ),
        (
            "unobservable\ntest unstated\nlifted\ninst 0 0.0\nleft 1\nright 1\nnot 3\nmember 2 0\nsplit 4\nabsent 6 2\nfalse 6\nend\n",
            Lifted::Refused(10),
        ),
        (
            "unobservable\ntest unstated\nlifted\ninst 0 0.0\nleft 1\nright 1\nnot 3\nmember 2 0\nsplit 4\nabsent 6 6\nfalse 6\nend\n",
            Lifted::Refused(10),
        ),
        // a fact of the other branch; no falsity; too early; after its end
        (
            "unobservable\ntest unstated\nlifted\ninst 0 0.0\nleft 1\nright 1\nnot 3\nmember 2 0\nsplit 4\nabsent 6 5\nabsent 6 5\nend\n",
            Lifted::Refused(11),
        ),
        (
            "unobservable\ntest unstated\nlifted\ninst 0 0.0\nleft 1\nright 1\nnot 3\nmember 2 0\nsplit 4\nabsent 6 5\nfalse 5\nend\n",
            Lifted::Refused(11),
        ),
        (
            "unobservable\ntest unstated\nlifted\ninst 0 0.0\nleft 1\nright 1\nnot 3\nmember 2 0\nsplit 4\nabsent 6 5\nfalse 4\nend\n",
            Lifted::Refused(11),
        ),
        (
            "unobservable\ntest unstated\nlifted\ninst 0 0.0\nleft 1\nright 1\nnot 3\nmember 2 0\nsplit 4\nabsent 6 5\nsplit 6\nend\n",
            Lifted::Refused(11),
        ),
        // a branch is open
        (
            "unobservable\ntest unstated\nlifted\ninst 0 0.0\nleft 1\nright 1\nnot 3\nmember 2 0\nsplit 4\nabsent 6 5\nend\nend\n",
            Lifted::Refused(11),
        ),
        // no branch is open
        (
            "unobservable\ntest unstated\nlifted\ninst 0 0.0\nleft 1\nright 1\nnot 3\nmember 2 0\nsplit 4\nabsent 6 5\nfalse 6\nfalse 6\n",
            Lifted::Refused(12),
        ),
    ],
)];

/// Facts of the connectives, each with a line for the other sign.
pub(crate) const CONNECTIVES: &[Judged] = &[
    (
        DENIED_OR,
        EMPTY,
        &[
            // both sides of a denied Or are denied
            (
                "unobservable\ntest unstated\nlifted\nnot 0\nright 1\nfalse 2\nend\n",
                Lifted::Unobservable,
            ),
            (
                "unobservable\ntest unstated\nlifted\nnot 0\nsplit 1\nfalse 2\nend\n",
                Lifted::Refused(5),
            ),
            // the left side is False, and denied
            (
                "unobservable\ntest unstated\nlifted\nnot 0\nleft 1\nfalse 2\nend\n",
                Lifted::Refused(6),
            ),
        ],
    ),
    (
        DENIED_IMPLICATION,
        EMPTY,
        &[
            // of a denied implication the left side holds, and the right one does not
            (
                "unobservable\ntest unstated\nlifted\nnot 0\nleft 1\nfalse 2\nend\n",
                Lifted::Unobservable,
            ),
            (
                "unobservable\ntest unstated\nlifted\nnot 0\nright 1\nfalse 2\nend\n",
                Lifted::Unobservable,
            ),
            (
                "unobservable\ntest unstated\nlifted\nnot 0\nsplit 1\nfalse 2\nend\n",
                Lifted::Refused(5),
            ),
        ],
    ),
    (
        EITHER_FALSE,
        EMPTY,
        &[
            // an Or, the left side first
            (
                "unobservable\ntest unstated\nlifted\nsplit 0\nfalse 1\nnot 1\nfalse 2\nend\n",
                Lifted::Unobservable,
            ),
            (
                "unobservable\ntest unstated\nlifted\nleft 0\nfalse 1\nnot 1\nfalse 2\nend\n",
                Lifted::Refused(4),
            ),
            (
                "unobservable\ntest unstated\nlifted\nright 0\nfalse 1\nnot 1\nfalse 2\nend\n",
                Lifted::Refused(4),
            ),
            (
                "unobservable\ntest unstated\nlifted\nsplit 0\nnot 1\nnot 1\nfalse 2\nend\n",
                Lifted::Refused(5),
            ),
        ],
    ),
    (
        NEVER_IMPLIED,
        EMPTY,
        &[
            // of an implication the left side is denied
            (
                "unobservable\ntest unstated\nlifted\nsplit 0\nfalse 1\nfalse 1\nend\n",
                Lifted::Unobservable,
            ),
            (
                "unobservable\ntest unstated\nlifted\nleft 0\nfalse 1\nfalse 1\nend\n",
                Lifted::Refused(4),
            ),
            (
                "unobservable\ntest unstated\nlifted\nright 0\nfalse 1\nfalse 1\nend\n",
                Lifted::Refused(4),
            ),
        ],
    ),
    (
        ALWAYS_IMPLIED,
        EMPTY,
        &[
            // its left side, which is False, is denied there
            (
                "unobservable\ntest unstated\nlifted\nsplit 0\nfalse 1\nfalse 1\nend\n",
                Lifted::Refused(5),
            ),
        ],
    ),
    (
        DENIED_AND,
        EMPTY,
        &[
            // one side of a denied And is denied
            (
                "unobservable\ntest unstated\nlifted\nnot 0\nsplit 1\nfalse 2\nfalse 2\nend\n",
                Lifted::Unobservable,
            ),
            (
                "unobservable\ntest unstated\nlifted\nnot 0\nleft 1\nfalse 2\nfalse 2\nend\n",
                Lifted::Refused(5),
            ),
            (
                "unobservable\ntest unstated\nlifted\nnot 0\nright 1\nfalse 2\nfalse 2\nend\n",
                Lifted::Refused(5),
            ),
        ],
    ),
];

/// Facts of quantifiers and of macros.
pub(crate) const QUANTIFIERS: &[Judged] = &[
    (
        A_READ,
        TWO,
        &[
            // one member after the other, and then none is left
            (
                "unobservable\ntest permitted: stricter\nlifted\nsplit 0\nfalse 1\nsplit 1\nfalse 2\nfalse 2\nend\n",
                Lifted::Unobservable,
            ),
            (
                "unobservable\ntest permitted: stricter\nlifted\ninst 0 0.0\nfalse 1\nsplit 1\nfalse 2\nfalse 2\nend\n",
                Lifted::Refused(4),
            ),
            (
                "unobservable\ntest permitted: stricter\nlifted\nfalse 0\nfalse 1\nsplit 1\nfalse 2\nfalse 2\nend\n",
                Lifted::Refused(4),
            ),
            // too early
            (
                "unobservable\ntest permitted: stricter\nlifted\nsplit 0\nfalse 1\nfalse 1\nfalse 2\nfalse 2\nend\n",
                Lifted::Refused(6),
            ),
            // after its end; a start before it
            (
                "unobservable\ntest permitted: stricter\nlifted\nsplit 0\nfalse 1\nsplit 1\nfalse 2\nsplit 2\nend\n",
                Lifted::Refused(8),
            ),
            (
                "unobservable\ntest permitted: stricter\nlifted\nsplit 0\nfalse 1\nsplit 1\nfalse 2\nfalse 1\nend\n",
                Lifted::Refused(8),
            ),
            // of the first fact all members are left
            (
                "unobservable\ntest permitted: stricter\nlifted\nsplit 0\nfalse 1\nsplit 0\nfalse 2\nfalse 2\nend\n",
                Lifted::Refused(8),
            ),
        ],
    ),
    (
        NO_WRITE,
        ONE,
        &[
            // a denied exists, at each value
            (
                "unobservable\ntest unstated\nlifted\nnot 0\ninst 1 0.0\nfalse 2\nend\n",
                Lifted::Unobservable,
            ),
            (
                "unobservable\ntest unstated\nlifted\nnot 0\nsplit 1\nfalse 2\nend\n",
                Lifted::Refused(5),
            ),
            (
                "unobservable\ntest unstated\nlifted\nnot 0\ninst 1 1.0\nfalse 2\nend\n",
                Lifted::Refused(5),
            ),
        ],
    ),
    (
        NOT_ALL_WRITE,
        ONE,
        &[
            // a denied forall
            (
                "unobservable\ntest unstated\nlifted\nnot 0\nsplit 1\nfalse 2\nfalse 2\nend\n",
                Lifted::Unobservable,
            ),
            (
                "unobservable\ntest unstated\nlifted\nnot 0\ninst 1 0.0\nfalse 2\nfalse 2\nend\n",
                Lifted::Refused(5),
            ),
            (
                "unobservable\ntest unstated\nlifted\nnot 0\nfalse 1\nfalse 2\nfalse 2\nend\n",
                Lifted::Refused(5),
            ),
            (
                "unobservable\ntest unstated\nlifted\nnot 0\nsplit 1\nfalse 2\nsplit 2\nend\n",
                Lifted::Refused(7),
            ),
        ],
    ),
    (
        NO_CORE,
        TWO_CORES,
        &[
            // a core by its number
            (
                "unobservable\ntest unstated\nlifted\ninst 0 1\nfalse 1\nend\n",
                Lifted::Unobservable,
            ),
            // out of range, of the other sort, and no form
            (
                "unobservable\ntest unstated\nlifted\ninst 0 2\nfalse 1\nend\n",
                Lifted::Refused(4),
            ),
            (
                "unobservable\ntest unstated\nlifted\ninst 0 0.0\nfalse 1\nend\n",
                Lifted::Refused(4),
            ),
            (
                "unobservable\ntest unstated\nlifted\ninst 0 01\nfalse 1\nend\n",
                Lifted::Refused(4),
            ),
            (
                "unobservable\ntest unstated\nlifted\ninst 0\nfalse 1\nend\n",
                Lifted::Refused(4),
            ),
            (
                "unobservable\ntest unstated\nlifted\ninst 0 0 0\nfalse 1\nend\n",
                Lifted::Refused(4),
            ),
        ],
    ),
    (
        NO_CORE,
        EMPTY,
        &[
            // a test without micro-ops has no core
            (
                "unobservable\ntest unstated\nlifted\ninst 0 0\nfalse 1\nend\n",
                Lifted::Refused(4),
            ),
        ],
    ),
    (
        ALL_ARE_READS,
        ONE,
        &[
            // a macro
            (
                "unobservable\ntest unstated\nlifted\ninst 0 0.0\nbind 1\nfalse 2\nend\n",
                Lifted::Unobservable,
            ),
            (
                "unobservable\ntest unstated\nlifted\ninst 0 0.0\nbind 0\nfalse 2\nend\n",
                Lifted::Refused(5),
            ),
            (
                "unobservable\ntest unstated\nlifted\ninst 0 0.0\nleft 1\nfalse 2\nend\n",
                Lifted::Refused(5),
            ),
            (
                "unobservable\ntest unstated\nlifted\ninst 0 0.0\nfalse 1\nfalse 2\nend\n",
                Lifted::Refused(5),
            ),
        ],
    ),
];

/// Cycles, paths and absent nodes.
pub(crate) const LEAVES: &[Judged] = &[
    (
        BOTH_ORDERS,
        TWO_FORBIDDEN,
        &[
            // a cycle of two edges, from either
            (
                "unobservable\ntest forbidden: ok\nlifted\ninst 0 0.0\ninst 2 1.0\nsplit 3\nfalse 4\nmember 4 0\ninst 1 0.0\ninst 6 1.0\nsplit 7\nfalse 8\nmember 8 0\ncycle 5 9\nend\n",
                Lifted::Unobservable,
            ),
            (
                "unobservable\ntest forbidden: ok\nlifted\ninst 0 0.0\ninst 2 1.0\nsplit 3\nfalse 4\nmember 4 0\ninst 1 0.0\ninst 6 1.0\nsplit 7\nfalse 8\nmember 8 0\ncycle 9 5\nend\n",
                Lifted::Unobservable,
            ),
            (
                "unobservable\ntest forbidden: ok\nlifted\ninst 0 0.0\ninst 2 1.0\nsplit 3\nfalse 3\nmember 4 0\ninst 1 0.0\ninst 6 1.0\nsplit 7\nfalse 8\nmember 8 0\ncycle 5 9\nend\n",
                Lifted::Refused(7),
            ),
            // a cycle that does not close, a list, and no edge
            (
                "unobservable\ntest forbidden: ok\nlifted\ninst 0 0.0\ninst 2 1.0\nsplit 3\nfalse 4\nmember 4 0\ninst 1 0.0\ninst 6 1.0\nsplit 7\nfalse 8\nmember 8 0\ncycle 5 5\nend\n",
                Lifted::Refused(14),
            ),
            (
                "unobservable\ntest forbidden: ok\nlifted\ninst 0 0.0\ninst 2 1.0\nsplit 3\nfalse 4\nmember 4 0\ninst 1 0.0\ninst 6 1.0\nsplit 7\nfalse 8\nmember 8 0\ncycle 9\nend\n",
                Lifted::Refused(14),
            ),
            (
                "unobservable\ntest forbidden: ok\nlifted\ninst 0 0.0\ninst 2 1.0\nsplit 3\nfalse 4\nmember 4 0\ninst 1 0.0\ninst 6 1.0\nsplit 7\nfalse 8\nmember 8 0\ncycle 5 8\nend\n",
                Lifted::Refused(14),
            ),
            (
                "unobservable\ntest forbidden: ok\nlifted\ninst 0 0.0\ninst 2 1.0\nsplit 3\nfalse 4\nmember 4 0\ninst 1 0.0\ninst 6 1.0\nsplit 7\nfalse 8\nmember 8 0\ncycle\nend\n",
                Lifted::Refused(14),
            ),
            (
                "unobservable\ntest forbidden: ok\nlifted\ninst 0 0.0\ninst 2 1.0\nsplit 3\nfalse 4\nmember 4 0\ninst 1 0.0\ninst 6 1.0\nsplit 7\nfalse 8\nmember 8 0\ncycle 5 9 5\nend\n",
                Lifted::Refused(14),
            ),
        ],
    ),
    (
        ITSELF,
        ONE,
        &[
            // a cycle of one edge
            (
                "unobservable\ntest unstated\nlifted\ninst 0 0.0\nmember 1 0\ncycle 2\nend\n",
                Lifted::Unobservable,
            ),
        ],
    ),
    (
        JOINED,
        ONE,
        &[
            // a path of two edges
            (
                "unobservable\ntest unstated\nlifted\ninst 0 0.0\nleft 1\nright 1\nnot 3\nmember 2 0\nmember 2 1\nsplit 4\npath 5 6 7\nfalse 7\nend\n",
                Lifted::Unobservable,
            ),
            (
                "unobservable\ntest unstated\nlifted\ninst 0 0.0\nleft 1\nright 1\nnot 3\nmember 2 0\nmember 2 2\nsplit 4\npath 5 6 7\nfalse 7\nend\n",
                Lifted::Refused(9),
            ),
            // edges that are not joined, a denial of another pair, no edge, and no denial
            (
                "unobservable\ntest unstated\nlifted\ninst 0 0.0\nleft 1\nright 1\nnot 3\nmember 2 0\nmember 2 1\nsplit 4\npath 6 5 7\nfalse 7\nend\n",
                Lifted::Refused(11),
            ),
            (
                "unobservable\ntest unstated\nlifted\ninst 0 0.0\nleft 1\nright 1\nnot 3\nmember 2 0\nmember 2 1\nsplit 4\npath 5 7\nfalse 7\nend\n",
                Lifted::Refused(11),
            ),
            (
                "unobservable\ntest unstated\nlifted\ninst 0 0.0\nleft 1\nright 1\nnot 3\nmember 2 0\nmember 2 1\nsplit 4\npath 7\nfalse 7\nend\n",
                Lifted::Refused(11),
            ),
            (
                "unobservable\ntest unstated\nlifted\ninst 0 0.0\nleft 1\nright 1\nnot 3\nmember 2 0\nmember 2 1\nsplit 4\npath 5 6\nfalse 7\nend\n",
                Lifted::Refused(11),
            ),
            (
                "unobservable\ntest unstated\nlifted\ninst 0 0.0\nleft 1\nright 1\nnot 3\nmember 2 0\nmember 2 1\nsplit 4\npath 5 6 4\nfalse 7\nend\n",
                Lifted::Refused(11),
            ),
            (
                "unobservable\ntest unstated\nlifted\ninst 0 0.0\nleft 1\nright 1\nnot 3\nmember 2 0\nmember 2 1\nsplit 4\ncycle 5 6\nfalse 7\nend\n",
                Lifted::Refused(11),
            ),
            (
                "unobservable\ntest unstated\nlifted\ninst 0 0.0\nleft 1\nright 1\nnot 3\nmember 2 0\nmember 2 1\nsplit 4\npath 5 6 5\nfalse 7\nend\n",
                Lifted::Refused(11),
            ),
            // that denial is of the other branch
            (
                "unobservable\ntest unstated\nlifted\ninst 0 0.0\nleft 1\nright 1\nnot 3\nmember 2 0\nmember 2 1\nsplit 4\npath 5 6 7\npath 5 6 7\nend\n",
                Lifted::Refused(12),
            ),
        ],
    ),
    (
        END_IS_ABSENT,
        ONE,
        &[
            // an end of an edge is absent
            (
                "unobservable\ntest unstated\nlifted\ninst 0 0.0\nleft 1\nright 1\nnot 3\nmember 2 0\nsplit 4\nabsent 6 5\nfalse 6\nend\n",
                Lifted::Unobservable,
            ),
            (
                "unobservable\ntest unstated\nlifted\ninst 0 0.0\nleft 1\nright 1\nnot 3\nmember 2 0\nsplit 4\nabsent 5 6\nfalse 6\nend\n",
                Lifted::Refused(10),
            ),
            (
                "unobservable\ntest unstated\nlifted\ninst 0 0.0\nleft 1\nright 1\nnot 3\nmember 2 0\nsplit 4\nabsent 6 4\nfalse 6\nend\n",
                Lifted::Refused(10),
            ),
        ],
    ),
    (
        OTHER_IS_ABSENT,
        ONE,
        &[
            // a node that is no end
            (
                "unobservable\ntest unstated\nlifted\ninst 0 0.0\nleft 1\nright 1\nnot 3\nmember 2 0\nsplit 4\nabsent 6 5\nfalse 6\nend\n",
                Lifted::Refused(10),
            ),
        ],
    ),
];
