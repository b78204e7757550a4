ghost use Rattle.std.specs.Prelude.{◌≡◌, ◌<◌, length};
ghost use Rattle.pc_common.specs.Writes.{Writes};
ghost use Rattle.command_base.specs.Endings.{IsPlaced, refusal_text};

use super::pieces::write_pieces;
use super::words::{fault_word, file_word};
use itoa::Buffer;
use pc_common::{Failed, InputFault, Place, Sink, line_col};

/// A fault of an input file with its line and column, both from 1.
#[derive(Clone, Copy)]
pub struct Refusal {
    pub fault: InputFault,
    pub line: u32,
    pub column: u32,
}

/// A fault with its line and column in the bytes of its file. A place past their end is told as their end.
/// No fault has a place past the end, and the code need not show that.
#[tactic(auto, using(crate::proofs::EndOfText::line_min, crate::proofs::EndOfText::column_min))]
pub fn place_fault(fault: InputFault, bytes: &[u8]) -> Refusal
    requires { length bytes.now < 4294967295 }
    ensures fault { result.fault ≡ fault }
    ensures placed { IsPlaced bytes.now result }
{
    let end = bytes.len() as u32;
    let place = Place {
        offset: fault.place.offset.min(end),
    };
    let (line, column) = line_col(bytes, place);
    Refusal {
        fault,
        line,
        column,
    }
}

/// Writes the line of a refusal. Takes no memory.
pub(crate) fn write_refusal<K: Sink>(out: &mut K, refusal: &Refusal) -> Result<(), Failed>
    ensures { Writes K.view out.old out.new result (refusal_text refusal.now) }
{
    let mut line = Buffer::new();
    let mut column = Buffer::new();
    write_pieces(
        out,
        &[
            b"refused ",
            file_word(refusal.fault.file),
            b" ",
            fault_word(refusal.fault.kind),
            b" at ",
            line.format(refusal.line).as_bytes(),
            b":",
            column.format(refusal.column).as_bytes(),
            b"\n",
        ],
    )
}
