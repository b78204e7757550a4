//! Files and sinks in memory, of which chosen calls fail.
use pc_common::{Bytes, Calls, Held, HeldFile, MemFiles, MemSink, Memory};
use std::alloc::Global;

/// Calls by their numbers, from 1.
pub fn calls(alloc: Global, numbers: &[u64]) -> Result<Calls, Memory> {
    Ok(Calls::from_vec(numbers.to_vec(alloc)?))
}

fn bytes(alloc: Global, text: &str) -> Result<Bytes, Memory> {
    Ok(Bytes::from_vec(text.as_bytes().to_vec(alloc)?))
}

fn held_file(alloc: Global, name: &str, content: &str) -> Result<HeldFile, Memory> {
    let name = bytes(alloc, name)?;
    Ok(HeldFile {
        name,
        bytes: bytes(alloc, content)?,
    })
}

/// Files of these names and contents.
pub fn hold_files(alloc: Global, contents: &[(&str, &str)]) -> Result<Held, Memory> {
    let mut held = Held::new(alloc);
    for (name, content) in contents {
        held.push(held_file(alloc, name, content)?)?;
    }
    Ok(held)
}

/// The same, of which these calls fail.
pub fn files(alloc: Global, contents: &[(&str, &str)], fails: &[u64]) -> Result<MemFiles, Memory> {
    let fails = calls(alloc, fails)?;
    MemFiles::new(alloc, hold_files(alloc, contents)?, fails)
}

/// A sink of 64 KiB, of which these calls fail.
pub fn sink(alloc: Global, fails: &[u64]) -> Result<MemSink, Memory> {
    MemSink::new(alloc, 65536, calls(alloc, fails)?)
}

/// A file of this name that has so many spaces.
fn spaces(alloc: Global, name: &str, count: usize) -> Result<HeldFile, Memory> {
    let name = bytes(alloc, name)?;
    let content = Bytes::from_vec(vec![in alloc; b' '; count]?);
    Ok(HeldFile {
        name,
        bytes: content,
    })
}

/// Files of these names and contents, and one of so many spaces. No call fails.
pub(crate) fn files_and_spaces(
    alloc: Global,
    contents: &[(&str, &str)],
    name: &str,
    count: usize,
) -> Result<MemFiles, Memory> {
    let mut held = hold_files(alloc, contents)?;
    held.push(spaces(alloc, name, count)?)?;
    MemFiles::new(alloc, held, Calls::new(alloc))
}
