//! How the command ends without a core: words, faults of the two files, and calls that fail.
use crate::memory_runs::{Failed, Told, USAGE};
use example_texts::{ORDERED, TWO};
use pc_common::Status;

/// The first axiom forbids every outcome, and the second, which would be no part of a core, has a fault.
const NEVER_AND_UNBOUND: &str = "Axiom \"never\": False.
Axiom \"n\": NodeExists (i, S).
";

/// A model and a test, and the line that refuses them.
pub(crate) const REFUSED: &[Told<'static>] = &[
    (&["True.", TWO], "refused model syntax at 1:1\n"),
    (&["Axiom \"a: True.", TWO], "refused model lexical at 1:7\n"),
    (&[NEVER_AND_UNBOUND, TWO], "refused model unbound at 2:24\n"),
    (&[ORDERED, "t"], "refused test syntax at 1:1\n"),
    // the axioms forbid every outcome, and the test has a fault
    (
        &[
            "Axiom \"never\": False.",
            "Litmus \"d\".\nMicroop 0 64 0 0 (Fence).\n",
        ],
        "refused test core-number at 2:11\n",
    ),
    // the model's fault is named before the test's
    (&["True.", "t"], "refused model syntax at 1:1\n"),
    (&[NEVER_AND_UNBOUND, "t"], "refused model unbound at 2:24\n"),
];

/// The command, the calls of the files and of the sink that fail, and how it ends over the files `model` and
/// `test`.
pub(crate) const FAILS: &[Failed<'static>] = &[
    ("core none test", &[], &[], Status::ReadFault, ""),
    ("core model none", &[], &[], Status::ReadFault, ""),
    ("core model test", &[1], &[], Status::ReadFault, ""),
    ("core model test", &[2], &[], Status::ReadFault, ""),
    ("core model test", &[3], &[], Status::ReadFault, ""),
    ("core model test", &[4], &[], Status::ReadFault, ""),
    // the words are no command
    ("core", &[], &[], Status::Usage, USAGE),
    ("core model", &[], &[], Status::Usage, USAGE),
    ("core model test more", &[], &[], Status::Usage, USAGE),
    ("Core model test", &[], &[], Status::Usage, USAGE),
    ("cores model test", &[], &[], Status::Usage, USAGE),
    ("model test core", &[], &[], Status::Usage, USAGE),
    // and no file is started
    ("core model", &[1], &[], Status::Usage, USAGE),
    // each line before the first certificate is one piece
    ("core model test", &[], &[1], Status::WriteFault, ""),
    ("core model test", &[], &[2], Status::WriteFault, "core 2\n"),
    (
        "core model test",
        &[],
        &[3],
        Status::WriteFault,
        "core 2\naxiom 0\n",
    ),
    (
        "core model test",
        &[],
        &[4],
        Status::WriteFault,
        "core 2\naxiom 0\naxiom 1\n",
    ),
    (
        "core model test",
        &[],
        &[5],
        Status::WriteFault,
        "core 2\naxiom 0\naxiom 1\nrefutation\n",
    ),
];
