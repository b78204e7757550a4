//! The command check: from words and files to a status and a text.
use crate::memory_runs::{Failed, Plan, Run, Told, USAGE, hold_files, words};
use example_texts::{BOTH_ORDERS, EMPTY, ITSELF, ONE, ORDERED, TWO, TWO_FORBIDDEN, TWO_IN_ORDER};
use pc_common::{Status, SureFiles, SureSink};
use pipecheck_run::run;
use std::test::Fail;

const CYCLE: &str = "unobservable
test forbidden: ok
cycle 0.0@0:S 1.0@0:S
end
";

const STRICTER: &str = "unobservable
test permitted: stricter
cycle 0.0@0:S 1.0@0:S
end
";

/// A model and a test, and how a check of them ends.
pub(crate) const CHECKS: &[Run<'static>] = &[
    (
        &["", EMPTY],
        Status::Observable,
        "observable\ntest unstated\nend\n",
    ),
    (&[ORDERED, TWO], Status::Observable, TWO_IN_ORDER),
    (&[BOTH_ORDERS, TWO_FORBIDDEN], Status::Unobservable, CYCLE),
    (&[BOTH_ORDERS, TWO], Status::Unobservable, STRICTER),
    (
        &[ITSELF, ONE],
        Status::Unobservable,
        "unobservable\ntest unstated\ncycle 0.0@0:S\nend\n",
    ),
    (
        &["True.", TWO],
        Status::Refused,
        "refused model syntax at 1:1\n",
    ),
    (
        &[ORDERED, "t"],
        Status::Refused,
        "refused test syntax at 1:1\n",
    ),
    // the model's fault is named before the test's
    (
        &["True.", "t"],
        Status::Refused,
        "refused model syntax at 1:1\n",
    ),
];

/// Tests over the empty model, and the one line that refuses each.
pub(crate) const REFUSED: &[Told<'static>] = &[
    (
        &[
            "",
            "Litmus \"d\".\nMicroop 0 0 0 0 (Fence).\nMicroop 0 0 0 0 (Fence).\n",
        ],
        "refused test duplicate-op at 3:9\n",
    ),
    (
        &["", "Litmus \"d\".\nMicroop 0 64 0 0 (Fence).\n"],
        "refused test core-number at 2:11\n",
    ),
    (
        &[
            "",
            "Litmus \"d\".\nMicroop 0 0 0 0 (Fence).\nMicroop 0 1 0 1 (Fence).\n",
        ],
        "refused test split-instruction at 3:11\n",
    ),
    (
        &["", "Litmus \"d\".\nPermitted.\nForbidden.\n"],
        "refused test again-expectation at 3:1\n",
    ),
    (
        &["", "Litmus \"d\".\nRelationship addr 0 0 -> 1 0.\n"],
        "refused test op-unknown at 2:19\n",
    ),
    (
        &["", "Litmus \"d\".\nInit (PA 0 0) 1.\nInit (PA 0 0) 1.\n"],
        "refused test again-initial at 3:1\n",
    ),
    // the first fault in the text's order
    (
        &[
            "",
            "Litmus \"d\".\nFinal (PA 0 0) 1.\nFinal (PA 0 0) 1.\nPermitted.\nForbidden.\n",
        ],
        "refused test again-final at 3:1\n",
    ),
];

const CHECK: &str = "check model test";

/// The command, the calls of the files and of the sink that fail, and how it ends over the files `model`,
/// `test` and `bad`. A line that is the whole answer is written in one call.
pub(crate) const FAILS: &[Failed<'static>] = &[
    // a missing name; `opening` counts what is opened
    ("check model none", &[], &[], Status::ReadFault, ""),
    ("check none test", &[], &[], Status::ReadFault, ""),
    ("check none bad", &[], &[], Status::ReadFault, ""),
    // the start of the model, its first read, and the read that would see its end
    (CHECK, &[1], &[], Status::ReadFault, ""),
    (CHECK, &[2], &[], Status::ReadFault, ""),
    (CHECK, &[3], &[], Status::ReadFault, ""),
    // the start of the test
    (CHECK, &[4], &[], Status::ReadFault, ""),
    // the words are no command, and the call of the files that would fail is never made
    ("check model", &[1], &[], Status::Usage, USAGE),
    (CHECK, &[], &[1], Status::WriteFault, ""),
    (CHECK, &[], &[2], Status::WriteFault, "observable\n"),
    ("check model bad", &[], &[1], Status::WriteFault, ""),
    (
        "check model bad",
        &[],
        &[2],
        Status::Refused,
        "refused test syntax at 1:1\n",
    ),
    ("check model", &[], &[1], Status::WriteFault, ""),
    ("check model", &[], &[2], Status::Usage, USAGE),
    // a read fault writes nothing, so that no call of the sink can fail
    ("check none test", &[], &[1], Status::ReadFault, ""),
];

/// Checks that have an answer. The verdict, the second line, what is between, and the end are a piece each.
pub(crate) const PLANS: &[Plan<'static>] = &[
    (
        "check model test",
        &[ORDERED, TWO],
        (Status::Observable, TWO_IN_ORDER),
        4,
    ),
    (
        "check model test",
        &[BOTH_ORDERS, TWO_FORBIDDEN],
        (Status::Unobservable, CYCLE),
        4,
    ),
];

#[test]
fn what_cannot_fail_is_answered(rt: HostRuntime) -> Result<(), Fail> {
    let words = words(rt.alloc(), "check model test")?;
    let mut files = SureFiles::new(hold_files(rt.alloc(), &[("model", ORDERED), ("test", TWO)])?);
    let checked = run(rt.alloc(), &words, &mut files, &mut SureSink::new());
    let told = run(rt.alloc(), &[], &mut files, &mut SureSink::new());
    assert!(rt; checked == Status::Observable && told == Status::Usage);
    Ok(())
}
