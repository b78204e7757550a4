//! Files of spaces alone, at a limit and one past it, and which files a run opens.
use crate::memory_runs::{End, ends_in, files_and_spaces, words};
use example_texts::{EITHER_ORDER, EMPTY, ONE, TWO_FORBIDDEN};
use pc_common::{Memory, Status};
use std::alloc::Global;

/// A command; the names and contents of files; the name of one more, and how many spaces it has; how the command ends; and
/// how many calls of the files fail, of which to start a name that is missing is one.
type Spaced = (
    &'static str,
    &'static [(&'static str, &'static str)],
    &'static str,
    usize,
    End<'static>,
    u64,
);

const SPACES: &[Spaced] = &[
    // a model, and a query
    (
        "check model test",
        &[("test", EMPTY)],
        "model",
        1_048_576,
        (Status::Observable, "observable\ntest unstated\nend\n"),
        0,
    ),
    (
        "check model test",
        &[("test", EMPTY)],
        "model",
        1_048_577,
        (Status::Refused, "refused model too-large at 1:1\n"),
        0,
    ),
    (
        "ask model test query",
        &[("model", ""), ("test", ONE)],
        "query",
        1_048_576,
        (Status::Refused, "refused query syntax at 1:1048577\n"),
        0,
    ),
    (
        "ask model test query",
        &[("model", ""), ("test", ONE)],
        "query",
        1_048_577,
        (Status::Refused, "refused query too-large at 1:1\n"),
        0,
    ),
    // it is told as the file is read, before a model and a test of another form are judged
    (
        "ask model test query",
        &[("model", "t"), ("test", "t")],
        "query",
        1_048_577,
        (Status::Refused, "refused query too-large at 1:1\n"),
        0,
    ),
    (
        "ask model test query",
        &[("model", "t"), ("test", "t")],
        "query",
        1_048_576,
        (Status::Refused, "refused model syntax at 1:1\n"),
        0,
    ),
    // a certificate past the limit is refused as a whole
    (
        "verify model test certificate",
        &[("model", EITHER_ORDER), ("test", TWO_FORBIDDEN)],
        "certificate",
        67_108_864,
        (Status::CertRefused, "certificate refused at line 1\n"),
        0,
    ),
    (
        "verify model test certificate",
        &[("model", EITHER_ORDER), ("test", TWO_FORBIDDEN)],
        "certificate",
        67_108_865,
        (Status::CertRefused, "certificate refused at line 0\n"),
        0,
    ),
    // a test that is missing is opened
    (
        "check test none",
        &[("test", EMPTY), ("bad", "t")],
        "large",
        1_048_577,
        (Status::ReadFault, ""),
        1,
    ),
    // a model that is missing or too large ends the work before the test is opened
    (
        "check none none",
        &[("test", EMPTY), ("bad", "t")],
        "large",
        1_048_577,
        (Status::ReadFault, ""),
        1,
    ),
    (
        "check large none",
        &[("test", EMPTY), ("bad", "t")],
        "large",
        1_048_577,
        (Status::Refused, "refused model too-large at 1:1\n"),
        0,
    ),
    // and a model with a fault ends it before the certificate is
    (
        "verify bad test none",
        &[("test", EMPTY), ("bad", "t")],
        "large",
        1_048_577,
        (Status::Refused, "refused model syntax at 1:1\n"),
        0,
    ),
];

/// Whether the run ends so.
fn is_end(
    alloc: Global,
    (command, contents, name, count, end, faults): Spaced,
) -> Result<bool, Memory> {
    let words = words(alloc, command)?;
    let mut files = files_and_spaces(alloc, contents, name, count)?;
    Ok(ends_in(alloc, &words, &mut files, &[], end)? && files.faults() == faults)
}

#[test]
fn a_file_is_read_up_to_its_limit_where_the_work_comes_to_it(rt: HostRuntime) {
    for spaced in SPACES {
        let is_so = is_end(rt.alloc(), *spaced);
        assert!(rt; is_so.unwrap_or(false), "{}: {} spaces", spaced.0, spaced.3);
    }
}
