//! How a command ends over files and a sink in memory.
use super::outside::{files, sink};
use pc_common::{MemFiles, MemSink, Memory, Status};
use std::alloc::Global;
use top_call::run;

/// How a run ends: its status, and what the sink holds.
pub type End<'a> = (Status, &'a str);

/// The words of a command, apart by spaces.
pub fn words(alloc: Global, command: &str) -> Result<Vec<String>, Memory> {
    let mut words = Vec::new(alloc);
    for word in command.split(' ') {
        if !word.is_empty() {
            words.push(word.to_owned(alloc)?)?;
        }
    }
    Ok(words)
}

/// The words after the first, each with what the file of that name holds.
pub(crate) fn name_contents<'a>(
    alloc: Global,
    words: &'a [String],
    contents: &[&'a str],
) -> Result<Vec<(&'a str, &'a str)>, Memory> {
    let mut named = Vec::new(alloc);
    for (word, content) in words.iter().skip(1).zip(contents) {
        named.push((word.as_str(), *content))?;
    }
    Ok(named)
}

/// Whether the run ends so.
fn ends(
    alloc: Global,
    words: &[String],
    files: &mut MemFiles,
    sink: &mut MemSink,
    end: End<'_>,
) -> bool {
    run(alloc, words, files, sink) == end.0 && sink.taken() == end.1.as_bytes()
}

/// The same, with a sink of its own, of which these calls fail.
pub fn ends_in(
    alloc: Global,
    words: &[String],
    files: &mut MemFiles,
    fails: &[u64],
    end: End<'_>,
) -> Result<bool, Memory> {
    let mut sink = sink(alloc, fails)?;
    Ok(ends(alloc, words, files, &mut sink, end))
}

/// Whether the command ends so over files of these names and contents, where these calls of the files and of the
/// sink fail.
pub fn ends_over(
    alloc: Global,
    command: &str,
    contents: &[(&str, &str)],
    fails: (&[u64], &[u64]),
    end: End<'_>,
) -> Result<bool, Memory> {
    let words = words(alloc, command)?;
    let mut files = files(alloc, contents, fails.0)?;
    ends_in(alloc, &words, &mut files, fails.1, end)
}

/// The same over files that hold these, in the order in which the command's words name them. No call fails.
pub fn ends_on<'a>(
    alloc: Global,
    command: &str,
    contents: &'a [&'a str],
    end: End<'_>,
) -> Result<bool, Memory> {
    let words = words(alloc, command)?;
    let contents = name_contents(alloc, &words, contents)?;
    let mut files = files(alloc, &contents, &[])?;
    ends_in(alloc, &words, &mut files, &[], end)
}

/// What the command writes over files of these names and contents.
pub fn output_of(
    alloc: Global,
    command: &str,
    contents: &[(&str, &str)],
) -> Result<Vec<u8>, Memory> {
    let words = words(alloc, command)?;
    let mut files = files(alloc, contents, &[])?;
    let mut sink = sink(alloc, &[])?;
    run(alloc, &words, &mut files, &mut sink);
    Ok(sink.taken().to_vec(alloc)?)
}
