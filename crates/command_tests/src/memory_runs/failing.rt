//! Runs of which one call fails: each call of the files in turn, and each call of the sink.
ghost use Rattle.std.specs.Prelude.{◌<◌};

use super::outside::{files, sink};
use super::runs::{End, name_contents, words};
use pc_common::{MemFiles, MemSink, Memory, Status};
use std::alloc::Global;
use top_call::run;

/// A command; what the files hold that its words name, in their order; how it ends where no call fails; and in how
/// many pieces it writes its text.
// Each command joins a table by one row, with a third file or none: ("sweep model test", &[ORDERED, TWO], end, 4).
pub type Plan<'a> = (&'a str, &'a [&'a str], End<'a>, u64);

/// The words of a run, its files by name, how many bytes a call moves at most, and how the run ends where no call
/// fails.
#[derive(Clone, Copy)]
struct PlannedRun<'a> {
    words: &'a [String],
    contents: &'a [(&'a str, &'a str)],
    step: usize,
    end: End<'a>,
}

/// Whose call fails.
#[derive(Clone, Copy)]
enum Failing {
    Files,
    Sink,
}

/// How a run ended of which a call may have failed.
#[derive(Clone, Copy)]
enum Outcome {
    /// No call failed, and the run ended as planned.
    Whole,
    /// A call of the files failed, which the status says, and nothing was written; or a call of the sink failed, which
    /// the status says, and a part of the planned text was written, from its start and shorter than the text.
    CutShort,
    /// None of these.
    Wrong,
}

fn outcome_if(is_right: bool, right: Outcome) -> Outcome {
    if is_right { right } else { Outcome::Wrong }
}

fn outcome_in(
    alloc: Global,
    words: &[String],
    files: &mut MemFiles,
    sink: &mut MemSink,
    end: End<'_>,
) -> Outcome {
    let status = run(alloc, words, files, sink);
    let (taken, text) = (sink.taken(), end.1.as_bytes());
    if files.faults() > 0 {
        let is_empty = taken.is_empty();
        return outcome_if(status == Status::ReadFault && is_empty, Outcome::CutShort);
    }
    if sink.faults() > 0 {
        let is_part = taken.len() < text.len() && text.starts_with(taken);
        return outcome_if(status == Status::WriteFault && is_part, Outcome::CutShort);
    }
    outcome_if(status == end.0 && taken == text, Outcome::Whole)
}

/// The outcome over files and a sink of its own, of which these calls fail.
fn outcome_over(
    alloc: Global,
    planned: PlannedRun<'_>,
    fails: (&[u64], &[u64]),
) -> Result<Outcome, Memory>
    requires { 0 < planned.step }
{
    let mut files = files(alloc, planned.contents, fails.0)?.with_step(planned.step);
    let mut sink = sink(alloc, fails.1)?.with_step(planned.step);
    Ok(outcome_in(alloc, planned.words, &mut files, &mut sink, planned.end))
}

/// The outcome where this call fails.
fn outcome_at(
    alloc: Global,
    planned: PlannedRun<'_>,
    failing: Failing,
    call: u64,
) -> Result<Outcome, Memory>
    requires { 0 < planned.step }
{
    let call = [call];
    match failing {
        Failing::Files => outcome_over(alloc, planned, (&call, &[])),
        Failing::Sink => outcome_over(alloc, planned, (&[], &call)),
    }
}

/// How many calls of these the run makes, each of which was made to fail in turn: the number counts up until no call
/// fails. None where an outcome is wrong.
fn calls_cut_short(
    alloc: Global,
    planned: PlannedRun<'_>,
    failing: Failing,
) -> Result<Option<u64>, Memory>
    requires { 0 < planned.step }
{
    for call in 1..10_000u64 {
        match outcome_at(alloc, planned, failing, call)? {
            Outcome::CutShort => {}
            Outcome::Whole => return Ok(Some(call - 1)),
            Outcome::Wrong => return Ok(None),
        }
    }
    Ok(None)
}

/// How many calls read the files: each is started, its bytes are read, and one read more sees its end.
fn read_calls(contents: &[(&str, &str)], step: usize) -> u64
    requires { 0 < step }
{
    let mut calls = 0u64;
    for (_, content) in contents {
        let reads = content.len().div_ceil(step) as u64;
        calls = calls.saturating_add(reads).saturating_add(2);
    }
    calls
}

/// Whether the run makes as many calls of the files as read them and so many of the sink, and is cut short by each of
/// them that fails.
fn is_cut_short_by_each(alloc: Global, planned: PlannedRun<'_>, pieces: u64) -> Result<bool, Memory>
    requires { 0 < planned.step }
{
    let of_files = calls_cut_short(alloc, planned, Failing::Files)?;
    let of_sink = calls_cut_short(alloc, planned, Failing::Sink)?;
    Ok(of_files == Some(read_calls(planned.contents, planned.step)) && of_sink == Some(pieces))
}

/// The same where a call moves as many bytes as fit, and where it moves one.
fn is_cut_short_by_each_step(
    alloc: Global,
    words: &[String],
    contents: &[(&str, &str)],
    end: End<'_>,
    pieces: u64,
) -> Result<bool, Memory> {
    let whole = PlannedRun {
        words,
        contents,
        step: usize::MAX,
        end,
    };
    let by_bytes = PlannedRun { step: 1, ..whole };
    Ok(
        is_cut_short_by_each(alloc, whole, pieces)?
            && is_cut_short_by_each(alloc, by_bytes, end.1.len() as u64)?,
    )
}

/// Whether each call that the command makes of the files and of the sink cuts it short where it fails, both where a
/// call moves as many bytes as fit and where it moves one: after a failed read the status says so and nothing is
/// written, after a failed write the status says so and a part of the text is written, from its start and shorter than
/// the text. The calls are as many as the plan has them.
///
/// Each file has fewer bytes than one call may read.
pub fn are_failures_reported(
    alloc: Global,
    (command, contents, end, pieces): Plan<'_>,
) -> Result<bool, Memory> {
    let words = words(alloc, command)?;
    let contents = name_contents(alloc, &words, contents)?;
    is_cut_short_by_each_step(alloc, &words, &contents, end, pieces)
}
