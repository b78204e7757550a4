//! Nodes as texts, read and written again.
use super::fronts::front_of;
use pc_common::{Calls, MemSink, Memory};
use pc_ground::{Front, LineFault, NodeText};
use std::alloc::Global;
use std::process::Abort;
use std::test::Fail;

pub(crate) const STAGES: &str = "StageName 5 \"S\". StageName 63 \"T_1'\".";

pub(crate) const OPS: &str = "Litmus \"n\".
Microop 7 1 1 0 (Fence).
Microop 10 0 0 3 (Fence).
";

/// A text, and its node as the micro-op's place in the test, the core and the stage's number, or why it has
/// none.
const WORDS: &[(&'static str, Result<(u8, u8, u8), LineFault>)] = &[
    ("7.0@1:S", Ok((0, 1, 5))),
    ("10.3@0:T_1'", Ok((1, 0, 63))),
    // a core that the test does not have
    ("10.3@63:S", Ok((1, 63, 5))),
    ("", Err(LineFault::Malformed)),
    ("7.0@1", Err(LineFault::Malformed)),
    ("7.0@1:", Err(LineFault::Malformed)),
    ("07.0@1:S", Err(LineFault::Malformed)),
    ("7.00@1:S", Err(LineFault::Malformed)),
    ("7.0@01:S", Err(LineFault::Malformed)),
    ("7.0@1:5", Err(LineFault::Malformed)),
    ("7.0@1:S ", Err(LineFault::Malformed)),
    ("7.0:S@1", Err(LineFault::Malformed)),
    // the one number is of the first micro-op and the other of the second
    ("7.3@1:S", Err(LineFault::Foreign)),
    ("7.0@64:S", Err(LineFault::Foreign)),
    ("7.0@1:T", Err(LineFault::Foreign)),
    // what has no form is so whatever it names
    ("9.9@64:5", Err(LineFault::Malformed)),
];

/// Whether the word is read as this, and a node is written as the word again.
fn is_read_as(
    front: &Front,
    sink: &mut MemSink,
    word: &[u8],
    want: Result<(u8, u8, u8), LineFault>,
) -> bool {
    let nodes = NodeText::of(front);
    match nodes.read(word) {
        Ok(key) => {
            want == Ok((key.op, key.core, key.stage))
                && nodes.write(sink, key).is_ok()
                && sink.taken() == word
        }
        Err(fault) => want == Err(fault),
    }
}

fn is_read(
    alloc: Global,
    front: &Front,
    word: &str,
    want: Result<(u8, u8, u8), LineFault>,
) -> Result<bool, Memory> {
    let mut sink = MemSink::new(alloc, 64, Calls::from_vec(Vec::new(alloc)))?;
    Ok(is_read_as(front, &mut sink, word.as_bytes(), want))
}

/// Each word is read so.
fn each_is_read(rt: &impl Abort, alloc: Global, front: &Front) {
    for (word, want) in WORDS {
        let is_so = is_read(alloc, front, word, *want);
        assert!(rt; is_so.unwrap_or(false), "{word}");
    }
}

#[test]
fn a_node_is_read_and_written_or_told_to_be_none(rt: HostRuntime) -> Result<(), Fail> {
    let front = front_of(rt.alloc(), STAGES, OPS).ok_or("no front")?;
    each_is_read(&rt, rt.alloc(), &front);
    Ok(())
}
