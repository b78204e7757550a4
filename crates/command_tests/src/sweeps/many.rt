//! Many open reads: how many rows they have, and when these are too many.
use crate::memory_runs::{calls, ends_on, files, words};
use pc_common::{MemFiles, MemSink, Memory, Status};
use std::alloc::Global;
use std::test::Fail;
use top_call::run;

const ONE_WRITE: &str = "Microop 0 0 0 0 (Write (VA 0 0) (PA 0 0) (Data 1)).
";

const TWO_WRITES: &str = "Microop 0 0 0 0 (Write (VA 0 0) (PA 0 0) (Data 1)).
Microop 1 0 0 0 (Write (VA 0 0) (PA 0 0) (Data 2)).
";

/// A pattern of these writes, so many open reads at their address, and then this.
fn pattern_of(alloc: Global, writes: &str, reads: u32, behind: &str) -> Result<String, Memory> {
    let mut text = String::new(alloc);
    text.push_str("Litmus \"d\".\n")?;
    text.push_str(writes)?;
    for k in 0..reads {
        let g = u64::from(k) + 10;
        let line = format!(in alloc; "Microop {g} 0 0 0 (Read (VA 0 0) (PA 0 0) (Data Any)).\n")?;
        text.push_str(&line)?;
    }
    text.push_str(behind)?;
    Ok(text)
}

/// The bits of a row's number, one for each of twelve open reads.
const BITS: &[u32] = &[2048, 1024, 512, 256, 128, 64, 32, 16, 8, 4, 2, 1];

/// The line of a row of twelve values, each 0 or 1.
fn put_row(text: &mut String, row: u32) -> Result<(), Memory> {
    text.push_str("row")?;
    for bit in BITS {
        let value = if row & *bit == 0 { " 0" } else { " 1" };
        text.push_str(value)?;
    }
    text.push_str(" observable\n")?;
    Ok(())
}

/// The text of the sweep of twelve open reads, whose rows are all observable.
fn twelve(alloc: Global) -> Result<String, Memory> {
    let mut text = String::new(alloc);
    text.push_str("sweep 4096\n")?;
    for row in 0..4096 {
        put_row(&mut text, row)?;
    }
    text.push_str("observable 4096\nunobservable 0\nend\n")?;
    Ok(text)
}

/// Whether a sweep of the pattern, with a model without axioms, is done and writes this.
fn sweeps_to(alloc: Global, pattern: &str, text: &str) -> Result<bool, Memory> {
    let words = words(alloc, "sweep model test")?;
    let mut files = files(alloc, &[("model", ""), ("test", pattern)], &[])?;
    let mut sink = MemSink::new(alloc, 262144, calls(alloc, &[])?)?;
    Ok(writes(alloc, &words, &mut files, &mut sink, text))
}

fn writes(
    alloc: Global,
    words: &[String],
    files: &mut MemFiles,
    sink: &mut MemSink,
    text: &str,
) -> bool {
    run(alloc, words, files, sink) == Status::Done && sink.taken() == text.as_bytes()
}

#[test]
fn twelve_open_reads_of_two_values_have_4096_rows(rt: HostRuntime) -> Result<(), Fail> {
    let pattern = pattern_of(rt.alloc(), ONE_WRITE, 12, "")?;
    let text = twelve(rt.alloc())?;
    assert!(rt; sweeps_to(rt.alloc(), &pattern, &text)?);
    Ok(())
}

/// The text of the sweep of as many open reads as there may be micro-ops, with no write.
const NO_WRITE: &str = "sweep 1
row 0 0 0 0 0 0 0 0 0 0 0 0 0 0 0 0 0 0 0 0 0 0 0 0 0 0 0 0 0 0 0 0 0 0 0 0 0 0 0 0 0 0 0 0 0 0 0 0 0 0 0 0 0 0 0 0 0 0 0 0 0 0 0 0 observable
observable 1
unobservable 0
end
";

#[test]
fn open_reads_of_one_value_have_one_row(rt: HostRuntime) -> Result<(), Fail> {
    let pattern = pattern_of(rt.alloc(), "", 64, "")?;
    assert!(rt; sweeps_to(rt.alloc(), &pattern, NO_WRITE)?);
    Ok(())
}

/// Writes, so many open reads at their address, what stands after them, and the line that refuses it.
const TOO_MANY: &[(&'static str, u32, &'static str, &'static str)] = &[
    (ONE_WRITE, 13, "", "refused test too-many-rows at 15:48\n"),
    // the place is that of the first open read by which there are too many
    (ONE_WRITE, 14, "", "refused test too-many-rows at 15:48\n"),
    (TWO_WRITES, 8, "", "refused test too-many-rows at 11:48\n"),
    // a write after them gives them a value too
    (
        ONE_WRITE,
        8,
        "Microop 1 0 0 0 (Write (VA 0 0) (PA 0 0) (Data 2)).\n",
        "refused test too-many-rows at 10:48\n",
    ),
    // the other faults come first, wherever they stand
    (
        ONE_WRITE,
        13,
        "Final (PA 0 0) 1.\nFinal (PA 0 0) 1.\n",
        "refused test again-final at 17:1\n",
    ),
    (ONE_WRITE, 13, "Any", "refused test syntax at 16:1\n"),
    (ONE_WRITE, 13, "\"", "refused test lexical at 16:1\n"),
];

/// Whether a sweep of the pattern, with a model without axioms, is refused so.
fn is_refused(alloc: Global, pattern: &str, text: &str) -> Result<bool, Memory> {
    ends_on(
        alloc,
        "sweep model test",
        &["", pattern],
        (Status::Refused, text),
    )
}

/// The same of a pattern of so many open reads.
fn are_refused(
    alloc: Global,
    writes: &str,
    reads: u32,
    behind: &str,
    text: &str,
) -> Result<bool, Memory> {
    let pattern = pattern_of(alloc, writes, reads, behind)?;
    is_refused(alloc, &pattern, text)
}

#[test]
fn more_rows_than_4096_are_too_many(rt: HostRuntime) {
    for (writes, reads, behind, text) in TOO_MANY {
        let are_so = are_refused(rt.alloc(), writes, *reads, behind, text);
        assert!(rt; are_so.unwrap_or(false), "{reads}: {text}");
    }
}
