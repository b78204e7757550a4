//! Texts that have no form of a lifted refutation, each with the line at which it is refused.
use super::texts::Judged;
use example_texts::{EMPTY, SOME_OP};
use lifted_check::Lifted;

/// There is no micro-op, so that the one axiom is refuted by one line.
pub(crate) const FORMS: &[Judged] = &[(
    SOME_OP,
    EMPTY,
    &[
        (
            "unobservable\ntest unstated\nlifted\nfalse 0\nend\n",
            Lifted::Unobservable,
        ),
        // the three lines of the header
        ("", Lifted::Refused(1)),
        (
            "unobserved\ntest unstated\nlifted\nfalse 0\nend\n",
            Lifted::Refused(1),
        ),
        (
            "observable\ntest unstated\nlifted\nfalse 0\nend\n",
            Lifted::Refused(1),
        ),
        (
            "unobservable\ntest forbidden: ok\nlifted\nfalse 0\nend\n",
            Lifted::Refused(2),
        ),
        ("unobservable\nlifted\nfalse 0\nend\n", Lifted::Refused(2)),
        (
            "unobservable\ntest unstated\nfalse\nend\n",
            Lifted::Refused(3),
        ),
        (
            "unobservable\ntest unstated\nversion 2\nfalse 0\nend\n",
            Lifted::Refused(3),
        ),
        (
            "unobservable\ntest unstated\nlifted \nfalse 0\nend\n",
            Lifted::Refused(3),
        ),
        (
            "unobservable\ntest unstated\nlifted\nlifted\nfalse 0\nend\n",
            Lifted::Refused(4),
        ),
        // one space between two words, and no other byte
        (
            "unobservable\ntest unstated\nlifted\nfalse\nend\n",
            Lifted::Refused(4),
        ),
        (
            "unobservable\ntest unstated\nlifted\n false 0\nend\n",
            Lifted::Refused(4),
        ),
        (
            "unobservable\ntest unstated\nlifted\nfalse 0 \nend\n",
            Lifted::Refused(4),
        ),
        (
            "unobservable\ntest unstated\nlifted\nfalse  0\nend\n",
            Lifted::Refused(4),
        ),
        (
            "unobservable\ntest unstated\nlifted\nfalse\t0\nend\n",
            Lifted::Refused(4),
        ),
        (
            "unobservable\ntest unstated\nlifted\nfalse 0\r\nend\n",
            Lifted::Refused(4),
        ),
        (
            "unobservable\ntest unstated\nlifted\nfalse 0\0\nend\n",
            Lifted::Refused(4),
        ),
        (
            "unobservable\ntest unstated\nlifted\n\nend\n",
            Lifted::Refused(4),
        ),
        // a number of a fact, and a word of the table
        (
            "unobservable\ntest unstated\nlifted\nfalse 00\nend\n",
            Lifted::Refused(4),
        ),
        (
            "unobservable\ntest unstated\nlifted\nfalse +0\nend\n",
            Lifted::Refused(4),
        ),
        (
            "unobservable\ntest unstated\nlifted\nfalse 0x0\nend\n",
            Lifted::Refused(4),
        ),
        (
            "unobservable\ntest unstated\nlifted\nfalse 18446744073709551615\nend\n",
            Lifted::Refused(4),
        ),
        (
            "unobservable\ntest unstated\nlifted\nfalse 18446744073709551616\nend\n",
            Lifted::Refused(4),
        ),
        (
            "unobservable\ntest unstated\nlifted\nfalse 1\nend\n",
            Lifted::Refused(4),
        ),
        (
            "unobservable\ntest unstated\nlifted\nfalse 0 0\nend\n",
            Lifted::Refused(4),
        ),
        (
            "unobservable\ntest unstated\nlifted\nFalse 0\nend\n",
            Lifted::Refused(4),
        ),
        (
            "unobservable\ntest unstated\nlifted\nfalsity 0\nend\n",
            Lifted::Refused(4),
        ),
        // the last line, alone and ended
        (
            "unobservable\ntest unstated\nlifted\nend\n",
            Lifted::Refused(4),
        ),
        (
            "unobservable\ntest unstated\nlifted\nfalse 0\n",
            Lifted::Refused(5),
        ),
        (
            "unobservable\ntest unstated\nlifted\nfalse 0\nend",
            Lifted::Refused(5),
        ),
        (
            "unobservable\ntest unstated\nlifted\nfalse 0\nend \n",
            Lifted::Refused(5),
        ),
        (
            "unobservable\ntest unstated\nlifted\nfalse 0\nend\nend\n",
            Lifted::Refused(6),
        ),
        (
            "unobservable\ntest unstated\nlifted\nfalse 0\nend\n\n",
            Lifted::Refused(6),
        ),
        (
            "unobservable\ntest unstated\nlifted\nfalse 0\nend\nx",
            Lifted::Refused(6),
        ),
    ],
)];
