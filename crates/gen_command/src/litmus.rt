ghost use Rattle.std.specs.Prelude.{◌≡◌, ◌≤◌, ◌<◌, ◌+◌, ◌++◌, IfOk, OnOk};
ghost use Rattle.gen_command.specs.Ring.{op_line, core_lines, ring_test as ring_test_text};

use super::putting::put;
use itoa::Buffer;
use pc_common::Memory;
use std::alloc::Global;

/// The room that a line is given, in bytes. The longest has 56.
const LINE: usize = 64;

/// Puts the line of a micro-op: its instruction's number, its core, the word of its access, and its value.
fn put_op(text: &mut Vec<u8>, g: u8, core: u8, access: &[u8], value: u8) -> Result<(), Memory>
    ensures { OnOk result (text.new.items ≡ text.old.items ++ op_line g core access.now value) }
{
    let mut number = Buffer::new();
    let mut place = Buffer::new();
    let mut data = Buffer::new();
    let place = place.format(core).as_bytes();
    put(
        text,
        &[
            b"Microop ",
            number.format(g).as_bytes(),
            b" ",
            place,
            b" ",
            place,
            b" 0 (",
            access,
            b" (VA 0 0) (PA 0 0) (Data ",
            data.format(value).as_bytes(),
            b")).\n",
        ],
    )
}

/// Puts the two lines of a core, its write and its read.
fn put_core(text: &mut Vec<u8>, n: u8, core: u8) -> Result<(), Memory>
    requires { core < n × n ≤ 16 }
    ensures { OnOk result (text.new.items ≡ text.old.items ++ core_lines n core) }
{
    let next = (core + 1) % n;
    put_op(text, 2 * core, core, b"Write", core + 1)?;
    put_op(text, 2 * core + 1, core, b"Read", next + 1)
}

/// The text of the ring's test of `n` cores.
pub(crate) fn ring_test(alloc: Global, n: u8) -> Result<Vec<u8>, Memory>
    requires { 2 ≤ n × n ≤ 16 }
    ensures { IfOk result (λ text. text.items ≡ ring_test_text n) }
{
    let mut text = Vec::with_capacity(alloc, (2 * n as usize + 2) * LINE)?;
    put(&mut text, &[b"Litmus \"ring\".\n"])?;
    for core in 0..n {
        put_core(&mut text, n, core)?;
    }
    put(&mut text, &[b"Forbidden.\n"])?;
    Ok(text)
}
