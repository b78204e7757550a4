//! Models and tests that are made to break their readers: long chains of macros, and one micro-op too many.
use crate::memory_runs::{End, ends_on};
use example_texts::EMPTY;
use pc_common::{Memory, Status};
use std::alloc::Global;

/// Whether the check of the two ends so.
fn is_end(alloc: Global, model: &str, test: &str, end: End<'_>) -> Result<bool, Memory> {
    ends_on(alloc, "check model test", &[model, test], end)
}

/// How a macro of a chain expands the one before it.
#[derive(Clone, Copy)]
enum Link {
    Once,
    Twice,
}

/// The macro after the one of this number.
fn macro_behind(alloc: Global, before: u64, kind: Link) -> Result<String, Memory> {
    let number = before.saturating_add(1);
    let text = match kind {
        Link::Once => format!(in alloc; "DefineMacro \"m{number}\": ~ExpandMacro m{before}.\n")?,
        Link::Twice => format!(in alloc;
            "DefineMacro \"m{number}\": ExpandMacro m{before} /\\ ExpandMacro m{before}.\n"
        )?,
    };
    Ok(text)
}

/// A chain of so many macros after `m0`, and an axiom that expands the last.
fn put_chain(text: &mut String, alloc: Global, count: u64, kind: Link) -> Result<(), Memory> {
    text.push_str("DefineMacro \"m0\": True.\n")?;
    for before in 0..count {
        text.push_str(&macro_behind(alloc, before, kind)?)?;
    }
    text.push_str(&format!(in alloc; "Axiom \"x\": ExpandMacro m{count}.\n")?)?;
    Ok(())
}

fn chain(alloc: Global, count: u64, kind: Link) -> Result<String, Memory> {
    let mut text = String::new(alloc);
    put_chain(&mut text, alloc, count, kind)?;
    Ok(text)
}

/// A chain, and how its check with the empty test ends.
const CHAINS: &[(u64, Link, End<'static>)] = &[
    (
        255,
        Link::Once,
        (
            Status::Unobservable,
            "unobservable\ntest unstated\nfalse\nend\n",
        ),
    ),
    (
        256,
        Link::Once,
        (Status::Refused, "refused model too-deep at 258:1\n"),
    ),
    (
        18,
        Link::Twice,
        (Status::Refused, "refused model too-big at 20:1\n"),
    ),
];

/// Whether the check of a chain with the empty test ends so.
fn is_chain_end(alloc: Global, count: u64, kind: Link, end: End<'_>) -> Result<bool, Memory> {
    let model = chain(alloc, count, kind)?;
    is_end(alloc, &model, EMPTY, end)
}

#[test]
fn a_chain_of_macros_is_refused_past_its_limit(rt: HostRuntime) {
    for (count, kind, end) in CHAINS {
        let is_so = is_chain_end(rt.alloc(), *count, *kind, *end);
        assert!(rt; is_so.unwrap_or(false), "{count} macros");
    }
}

/// A test of so many fences, a line each, and then this line.
fn put_fences(text: &mut String, alloc: Global, count: u64, line: &str) -> Result<(), Memory> {
    text.push_str("Litmus \"m\".\n")?;
    for g in 0..count {
        text.push_str(&format!(in alloc; "Microop {g} 0 0 0 (Fence).\n")?)?;
    }
    text.push_str(line)?;
    Ok(())
}

fn fences(alloc: Global, count: u64, line: &str) -> Result<String, Memory> {
    let mut text = String::new(alloc);
    put_fences(&mut text, alloc, count, line)?;
    Ok(text)
}

/// How many fences a test has, the line after them, and how its check with the empty model ends.
const COUNTS: &[(u64, &'static str, End<'static>)] = &[
    (
        64,
        "",
        (Status::Observable, "observable\ntest unstated\nend\n"),
    ),
    (
        65,
        "",
        (Status::Refused, "refused test too-many-ops at 66:1\n"),
    ),
    // its core is judged before the number of micro-ops
    (
        64,
        "Microop 64 64 0 0 (Fence).\n",
        (Status::Refused, "refused test core-number at 66:12\n"),
    ),
];

/// Whether the check of the empty model with so many fences, and this line after them, ends so.
fn is_fences_end(alloc: Global, count: u64, line: &str, end: End<'_>) -> Result<bool, Memory> {
    let test = fences(alloc, count, line)?;
    is_end(alloc, "", &test, end)
}

#[test]
fn the_65th_micro_op_is_refused(rt: HostRuntime) {
    for (count, line, end) in COUNTS {
        let is_so = is_fences_end(rt.alloc(), *count, line, *end);
        assert!(rt; is_so.unwrap_or(false), "{count} fences and {line}");
    }
}
