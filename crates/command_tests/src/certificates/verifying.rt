//! The command verify: a text judged against a model and a test, whoever made it.
use super::judging::{Judged, REFUTED, judged};
use super::signs::signed;
use crate::memory_runs::{End, Failed, Plan, USAGE, ends_on};
use cert_check::Checked;
use example_texts::{EITHER_ORDER, ORDERED, TWO, TWO_FORBIDDEN, TWO_IN_ORDER};
use pc_common::{Memory, Status};
use std::alloc::Global;
use std::process::Abort;

const WORDS: &str = "verify model test certificate";

const REFUTATION_VERIFIED: End<'static> = (Status::Unobservable, "verified unobservable\n");

const GRAPH_VERIFIED: End<'static> = (Status::Observable, "verified observable\n");

/// Whether verify names this line as the refused one.
fn is_refused_at<'a>(alloc: Global, contents: &'a [&'a str], line: u64) -> Result<bool, Memory> {
    let text = format!(in alloc; "certificate refused at line {line}\n")?;
    ends_on(alloc, WORDS, contents, (Status::CertRefused, &text))
}

/// Whether verify answers so to a model, a test and a text.
fn is_answered<'a>(
    alloc: Global,
    contents: &'a [&'a str],
    checked: Checked,
) -> Result<bool, Memory> {
    match checked {
        Checked::Observable => ends_on(alloc, WORDS, contents, GRAPH_VERIFIED),
        Checked::Unobservable => ends_on(alloc, WORDS, contents, REFUTATION_VERIFIED),
        Checked::Refused(line) => is_refused_at(alloc, contents, line),
    }
}

/// Each text is verified, or refused at its line.
fn each_is_answered(rt: &impl Abort, alloc: Global, table: &[Judged]) {
    for (model, test, texts) in table {
        for (text, checked) in *texts {
            let is_so = is_answered(alloc, &[*model, *test, *text], *checked);
            assert!(rt; is_so.unwrap_or(false), "{text}");
        }
    }
}

#[test]
fn a_text_is_verified_or_refused_at_its_line(rt: HostRuntime) {
    each_is_answered(&rt, rt.alloc(), judged());
    each_is_answered(&rt, rt.alloc(), signed());
}

/// Words, which call of the files and of the sink fails, and how the run ends.
pub(crate) const ENDS: &[Failed<'static>] = &[
    (WORDS, &[], &[], Status::Observable, "verified observable\n"),
    // a name that is missing; a fault of the model is named before the third file is come to
    ("verify model test none", &[], &[], Status::ReadFault, ""),
    (
        "verify model none certificate",
        &[],
        &[],
        Status::ReadFault,
        "",
    ),
    (
        "verify bad test none",
        &[],
        &[],
        Status::Refused,
        "refused model syntax at 1:1\n",
    ),
    // the start of the certificate, its first read, and the read that would see its end
    (WORDS, &[7], &[], Status::ReadFault, ""),
    (WORDS, &[8], &[], Status::ReadFault, ""),
    (WORDS, &[9], &[], Status::ReadFault, ""),
    // the answer is one piece
    (WORDS, &[], &[1], Status::WriteFault, ""),
    (
        WORDS,
        &[],
        &[2],
        Status::Observable,
        "verified observable\n",
    ),
    ("verify model test", &[1], &[], Status::Usage, USAGE),
];

/// Texts that are verified.
pub(crate) const PLANS: &[Plan<'static>] = &[
    (
        WORDS,
        &[EITHER_ORDER, TWO_FORBIDDEN, REFUTED],
        REFUTATION_VERIFIED,
        1,
    ),
    (WORDS, &[ORDERED, TWO, TWO_IN_ORDER], GRAPH_VERIFIED, 1),
];
