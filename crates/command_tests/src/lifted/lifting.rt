//! The command lift: a certificate of version 1 made into a lifted refutation, or refused at its line.
use crate::memory_runs::{Plan, Run, ends_on, output_of};
use example_texts::{BOTH_ORDERS, EITHER_ORDER, EMPTY, ORDERED, SOME_OP, TWO, TWO_FORBIDDEN};
use pc_common::{Memory, Status};
use std::alloc::Global;

const WORDS: &str = "lift model test certificate";

/// A model and a test with a refutation, each of which lifts to a text that is verified.
const LIFTED: &[(&'static str, &'static str, &'static str)] = &[
    // an axiom that is False alone: there is no micro-op, and there is no core
    (SOME_OP, EMPTY, "unobservable\ntest unstated\nfalse\nend\n"),
    (
        "StageName 0 \"S\".\nAxiom \"c\": exists core \"c\", True.\n",
        EMPTY,
        "unobservable\ntest unstated\nfalse\nend\n",
    ),
    // sides that the ground tree leaves out, since the test alone decides them
    (
        BOTH_ORDERS,
        TWO_FORBIDDEN,
        "unobservable\ntest forbidden: ok\ncycle 0.0@0:S 1.0@0:S\nend\n",
    ),
    // one split, and the same choice split again on its left branch
    (
        EITHER_ORDER,
        TWO_FORBIDDEN,
        "unobservable\ntest forbidden: ok\nsplit 1\npath 0.0@0:S 1.0@0:S\npath 1.0@0:S 0.0@0:S 0.0@0:T\nend\n",
    ),
    (
        EITHER_ORDER,
        TWO_FORBIDDEN,
        "unobservable\ntest forbidden: ok\nsplit 1\nsplit 1\npath 0.0@0:S 1.0@0:S\npath 0.0@0:S 1.0@0:S\npath 1.0@0:S 0.0@0:S 0.0@0:T\nend\n",
    ),
];

/// Whether verify-lifted takes the text.
fn is_verified<'a>(
    alloc: Global,
    model: &'a str,
    test: &'a str,
    text: &'a [u8],
) -> Result<bool, Memory> {
    let Ok(text) = str::from_utf8(text) else {
        return Ok(false);
    };
    let end = (Status::Unobservable, "verified unobservable\n");
    ends_on(
        alloc,
        "verify-lifted model test lifted",
        &[model, test, text],
        end,
    )
}

/// Whether the text that the certificate is lifted to is verified.
fn is_lifted<'a>(
    alloc: Global,
    model: &'a str,
    test: &'a str,
    certificate: &'a str,
) -> Result<bool, Memory> {
    let contents = &[
        ("model", model),
        ("test", test),
        ("certificate", certificate),
    ];
    let text = output_of(alloc, WORDS, contents)?;
    is_verified(alloc, model, test, &text)
}

#[test]
fn a_lifted_refutation_is_verified(rt: HostRuntime) {
    for (model, test, certificate) in LIFTED {
        let is_so = is_lifted(rt.alloc(), *model, *test, *certificate);
        assert!(rt; is_so.unwrap_or(false), "{certificate}");
    }
}

/// A model and a test, a text, and how the command ends.
pub(crate) const ENDS: &[Run<'static>] = &[
    // one axiom is refuted by one line, on the tree as on the axioms
    (
        &[SOME_OP, EMPTY, "unobservable\ntest unstated\nfalse\nend\n"],
        Status::Done,
        "unobservable\ntest unstated\nlifted\nfalse 0\nend\n",
    ),
    // a graph that holds, and one that does not
    (
        &[
            ORDERED,
            TWO,
            "observable\ntest permitted: ok\nnode 0.0@0:S\nnode 1.0@0:S\nedge 0.0@0:S 1.0@0:S\nend\n",
        ],
        Status::Observable,
        "verified observable\n",
    ),
    (
        &[
            ORDERED,
            TWO,
            "observable\ntest permitted: ok\nnode 0.0@0:S\nnode 1.0@0:S\nedge 1.0@0:S 0.0@0:S\nend\n",
        ],
        Status::CertRefused,
        "certificate refused at line 6\n",
    ),
    // a refutation of version 2, no text at all, and a refutation that is lifted already
    (
        &[
            BOTH_ORDERS,
            TWO_FORBIDDEN,
            "unobservable\ntest forbidden: ok\nversion 2\ncycle 0.0@0:S 1.0@0:S\nend\n",
        ],
        Status::CertRefused,
        "certificate refused at line 3\n",
    ),
    (
        &[SOME_OP, EMPTY, ""],
        Status::CertRefused,
        "certificate refused at line 1\n",
    ),
    (
        &[
            SOME_OP,
            EMPTY,
            "unobservable\ntest unstated\nlifted\nfalse 0\nend\n",
        ],
        Status::CertRefused,
        "certificate refused at line 3\n",
    ),
    // a step that closes nothing, and a byte after the end
    (
        &[
            BOTH_ORDERS,
            TWO_FORBIDDEN,
            "unobservable\ntest forbidden: ok\ncycle 0.0@0:S\nend\n",
        ],
        Status::CertRefused,
        "certificate refused at line 3\n",
    ),
    (
        &[SOME_OP, EMPTY, "unobservable\ntest unstated\nfalse\nend\nx"],
        Status::CertRefused,
        "certificate refused at line 5\n",
    ),
];

/// The five lines of the lifted refutation are one piece.
pub(crate) const PLANS: &[Plan<'static>] = &[(
    WORDS,
    &[SOME_OP, EMPTY, "unobservable\ntest unstated\nfalse\nend\n"],
    (
        Status::Done,
        "unobservable\ntest unstated\nlifted\nfalse 0\nend\n",
    ),
    1,
)];
