//! How the command ends without rows: words, faults of the model, and calls that fail.
use crate::memory_runs::{Failed, Plan, Told, USAGE};
use example_texts::{ORDERED, TWO};
use pc_common::Status;

/// The one axiom has a fault.
const UNBOUND: &str = "Axiom \"n\": NodeExists (i, S).
";

/// A model and a pattern, and the line that refuses them.
pub(crate) const REFUSED: &[Told<'static>] = &[
    (&["True.", TWO], "refused model syntax at 1:1\n"),
    (&[UNBOUND, TWO], "refused model unbound at 1:24\n"),
    // the model's fault is named before the pattern's
    (&["True.", "t"], "refused model syntax at 1:1\n"),
    (&[UNBOUND, "t"], "refused model unbound at 1:24\n"),
    (&[ORDERED, "t"], "refused test syntax at 1:1\n"),
];

/// The command, the calls of the files and of the sink that fail, and how it ends over the files `model` and
/// `test`.
pub(crate) const FAILS: &[Failed<'static>] = &[
    ("sweep none test", &[], &[], Status::ReadFault, ""),
    ("sweep model none", &[], &[], Status::ReadFault, ""),
    ("sweep model test", &[1], &[], Status::ReadFault, ""),
    ("sweep model test", &[2], &[], Status::ReadFault, ""),
    ("sweep model test", &[3], &[], Status::ReadFault, ""),
    ("sweep model test", &[4], &[], Status::ReadFault, ""),
    // no word is a command, and no file is started
    ("sweep model", &[1], &[], Status::Usage, USAGE),
    ("sweep model test", &[], &[1], Status::WriteFault, ""),
];

/// A pattern without open reads, whose text is one piece.
pub(crate) const PLANS: &[Plan<'static>] = &[(
    "sweep model test",
    &[ORDERED, TWO],
    (
        Status::Done,
        "sweep 1\nrow observable\nobservable 1\nunobservable 0\nend\n",
    ),
    1,
)];
