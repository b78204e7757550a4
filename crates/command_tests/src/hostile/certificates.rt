//! Certificates that are made to break the judge: each beginning of one, and a million splits.
use crate::memory_runs::{ends_on, output_of};
use example_texts::{EITHER_ORDER, TWO_FORBIDDEN};
use pc_common::{Memory, Status};
use std::alloc::Global;
use std::test::Fail;

const WORDS: &str = "verify model test certificate";

/// Whether verify names this line of the text as the refused one.
fn is_refused(alloc: Global, text: &[u8], line: u64) -> Result<bool, Memory> {
    let Ok(text) = str::from_utf8(text) else {
        return Ok(false);
    };
    let contents = &[EITHER_ORDER, TWO_FORBIDDEN, text];
    let answer = format!(in alloc; "certificate refused at line {line}\n")?;
    ends_on(alloc, WORDS, contents, (Status::CertRefused, &answer))
}

/// Whether each beginning of the text is refused at the line in which it ends.
fn are_beginnings_refused(alloc: Global, text: &[u8]) -> Result<bool, Memory> {
    let mut line = 1u64;
    for k in 0..text.len() {
        if !is_refused(alloc, &text[..k], line)? {
            return Ok(false);
        }
        if text[k] == b'\n' {
            line = line.saturating_add(1);
        }
    }
    Ok(true)
}

/// The refutation that check writes has a split, and so two branches.
#[test]
fn a_beginning_is_refused_at_its_last_line(rt: HostRuntime) -> Result<(), Fail> {
    let contents = &[("model", EITHER_ORDER), ("test", TWO_FORBIDDEN)];
    let text = output_of(rt.alloc(), "check model test", contents)?;
    assert!(rt; text.starts_with(b"unobservable\n"));
    assert!(rt; are_beginnings_refused(rt.alloc(), &text)?);
    Ok(())
}

/// The first two lines, then so many splits of one Or, and then the last line.
fn put_splits(text: &mut String, count: u64) -> Result<(), Memory> {
    text.push_str("unobservable\ntest forbidden: ok\n")?;
    for _ in 0..count {
        text.push_str("split 1\n")?;
    }
    text.push_str("end\n")?;
    Ok(())
}

fn splits(alloc: Global, count: u64) -> Result<String, Memory> {
    let mut text = String::new(alloc);
    put_splits(&mut text, count)?;
    Ok(text)
}

#[test]
fn a_million_splits_leave_branches_open_at_the_end(rt: HostRuntime) -> Result<(), Fail> {
    let text = splits(rt.alloc(), 1_000_000)?;
    assert!(rt; is_refused(rt.alloc(), text.as_bytes(), 1_000_003)?);
    Ok(())
}
