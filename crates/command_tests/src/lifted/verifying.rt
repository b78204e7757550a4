//! The command verify-lifted: a text judged against a model and a test.
use crate::memory_runs::{Failed, Plan, Run, USAGE};
use example_texts::{BOTH_ORDERS, EMPTY, SOME_OP, TWO_FORBIDDEN};
use pc_common::Status;

const WORDS: &str = "verify-lifted model test certificate";

const VERIFIED: &str = "verified unobservable\n";

/// A model and a test, a text, and how the command ends.
pub(crate) const ENDS: &[Run<'static>] = &[
    (
        &[
            BOTH_ORDERS,
            TWO_FORBIDDEN,
            "unobservable\ntest forbidden: ok\nlifted\ninst 0 0.0\ninst 2 1.0\nsplit 3\nfalse 4\nmember 4 0\ninst 1 0.0\ninst 6 1.0\nsplit 7\nfalse 8\nmember 8 0\ncycle 5 9\nend\n",
        ],
        Status::Unobservable,
        VERIFIED,
    ),
    // no predicate against its sign, and a cycle that does not close
    (
        &[
            BOTH_ORDERS,
            TWO_FORBIDDEN,
            "unobservable\ntest forbidden: ok\nlifted\ninst 0 0.0\ninst 2 1.0\nsplit 3\nfalse 3\nmember 4 0\ninst 1 0.0\ninst 6 1.0\nsplit 7\nfalse 8\nmember 8 0\ncycle 5 9\nend\n",
        ],
        Status::CertRefused,
        "certificate refused at line 7\n",
    ),
    (
        &[
            BOTH_ORDERS,
            TWO_FORBIDDEN,
            "unobservable\ntest forbidden: ok\nlifted\ninst 0 0.0\ninst 2 1.0\nsplit 3\nfalse 4\nmember 4 0\ninst 1 0.0\ninst 6 1.0\nsplit 7\nfalse 8\nmember 8 0\ncycle 5 5\nend\n",
        ],
        Status::CertRefused,
        "certificate refused at line 14\n",
    ),
    // there is no micro-op, so that the one axiom is refuted by one line
    (
        &[
            SOME_OP,
            EMPTY,
            "unobservable\ntest unstated\nlifted\nfalse 0\nend\n",
        ],
        Status::Unobservable,
        VERIFIED,
    ),
    // no line, a line without its end, a byte after the last line, and a byte that no line has
    (
        &[SOME_OP, EMPTY, ""],
        Status::CertRefused,
        "certificate refused at line 1\n",
    ),
    (
        &[
            SOME_OP,
            EMPTY,
            "unobservable\ntest unstated\nlifted\nfalse 0\nend",
        ],
        Status::CertRefused,
        "certificate refused at line 5\n",
    ),
    (
        &[
            SOME_OP,
            EMPTY,
            "unobservable\ntest unstated\nlifted\nfalse 0\nend\nx",
        ],
        Status::CertRefused,
        "certificate refused at line 6\n",
    ),
    (
        &[
            SOME_OP,
            EMPTY,
            "unobservable\ntest unstated\nlifted\nfalse 0\0\nend\n",
        ],
        Status::CertRefused,
        "certificate refused at line 4\n",
    ),
    // certificates of the ground tree, of either version, and of a graph
    (
        &[
            BOTH_ORDERS,
            TWO_FORBIDDEN,
            "unobservable\ntest forbidden: ok\ncycle 0.0@0:S 1.0@0:S\nend\n",
        ],
        Status::CertRefused,
        "certificate refused at line 3\n",
    ),
    (
        &[
            BOTH_ORDERS,
            TWO_FORBIDDEN,
            "unobservable\ntest forbidden: ok\nversion 2\ncycle 0.0@0:S 1.0@0:S\nend\n",
        ],
        Status::CertRefused,
        "certificate refused at line 3\n",
    ),
    (
        &[BOTH_ORDERS, EMPTY, "observable\ntest unstated\nend\n"],
        Status::CertRefused,
        "certificate refused at line 1\n",
    ),
];

/// Words, which call of the files and of the sink fails, and how the run ends.
pub(crate) const EARLY: &[Failed<'static>] = &[
    (WORDS, &[], &[], Status::Unobservable, VERIFIED),
    // a name that is missing; a fault of the model or of the test is named before the third file is come to
    (
        "verify-lifted model test none",
        &[],
        &[],
        Status::ReadFault,
        "",
    ),
    (
        "verify-lifted model none certificate",
        &[],
        &[],
        Status::ReadFault,
        "",
    ),
    (
        "verify-lifted bad test none",
        &[],
        &[],
        Status::Refused,
        "refused model syntax at 1:1\n",
    ),
    (
        "verify-lifted model bad none",
        &[],
        &[],
        Status::Refused,
        "refused test syntax at 1:1\n",
    ),
    // the start of the certificate, its first read, and the read that would see its end
    (WORDS, &[7], &[], Status::ReadFault, ""),
    (WORDS, &[8], &[], Status::ReadFault, ""),
    (WORDS, &[9], &[], Status::ReadFault, ""),
    // the answer is one piece
    (WORDS, &[], &[1], Status::WriteFault, ""),
    (WORDS, &[], &[2], Status::Unobservable, VERIFIED),
    ("verify-lifted model test", &[1], &[], Status::Usage, USAGE),
    (
        "Verify-lifted model test certificate",
        &[1],
        &[],
        Status::Usage,
        USAGE,
    ),
];

/// The one axiom is refuted by one line.
pub(crate) const PLANS: &[Plan<'static>] = &[(
    WORDS,
    &[
        SOME_OP,
        EMPTY,
        "unobservable\ntest unstated\nlifted\nfalse 0\nend\n",
    ],
    (Status::Unobservable, VERIFIED),
    1,
)];
