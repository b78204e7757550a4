//! Questions that need many splits where the search does not follow what failed: their verdicts in both versions, with
//! certificates that `verify` takes.
use crate::memory_runs::{End, ends_on, output_of};
use example_texts::{LOCK_OF_FOUR, ONE_MEMORY, RUN_OF_TWENTY_FOUR};
use pc_common::{Memory, Status};
use std::alloc::Global;

/// A command, a test on one memory, how the text begins that is written, and how that text is judged.
const JUDGED: &[(&'static str, &'static str, &'static str, End<'static>)] = &[
    (
        "check model test",
        LOCK_OF_FOUR,
        "unobservable\ntest forbidden: ok\nsplit ",
        (Status::Unobservable, "verified unobservable\n"),
    ),
    (
        "check2 model test",
        LOCK_OF_FOUR,
        "unobservable\ntest forbidden: ok\nversion 2\nsplit ",
        (Status::Unobservable, "verified unobservable\n"),
    ),
    (
        "check model test",
        RUN_OF_TWENTY_FOUR,
        "observable\ntest permitted: ok\nnode ",
        (Status::Observable, "verified observable\n"),
    ),
    (
        "check2 model test",
        RUN_OF_TWENTY_FOUR,
        "observable\ntest permitted: ok\nnode ",
        (Status::Observable, "verified observable\n"),
    ),
];

/// Whether `verify` ends so with the text.
fn is_taken<'a>(
    alloc: Global,
    model: &'a str,
    test: &'a str,
    text: &'a str,
    end: End<'_>,
) -> Result<bool, Memory> {
    ends_on(alloc, "verify model test text", &[model, test, text], end)
}

/// Whether the command writes a text that begins so, and `verify` ends so with that text.
fn is_judged<'a>(
    alloc: Global,
    command: &str,
    test: &'a str,
    head: &str,
    end: End<'_>,
) -> Result<bool, Memory> {
    let text = output_of(alloc, command, &[("model", ONE_MEMORY), ("test", test)])?;
    let Ok(text) = str::from_utf8(&text) else {
        return Ok(false);
    };
    if !text.starts_with(head) {
        return Ok(false);
    }
    is_taken(alloc, ONE_MEMORY, test, text, end)
}

#[test]
fn what_failed_leads_the_search(rt: HostRuntime) {
    for (command, test, head, end) in JUDGED {
        let is_so = is_judged(rt.alloc(), command, *test, head, *end);
        assert!(rt; is_so.unwrap_or(false), "{command}: {head}");
    }
}
