ghost use Rattle.std.specs.Prelude.{◌≡◌, length, map, slice_set, IfOk};
ghost use Rattle.pattern_reader.specs.Opens.{plain_open};
ghost use Rattle.pattern_reader.specs.Closing.{with_zero, closed_bytes as closed_bytes_spec};

use super::opens::Open;
use pc_common::Memory;
use std::alloc::Global;

/// Puts a byte at this place. Past the end nothing changes.
fn put(bytes: &mut Vec<u8>, at: usize, byte: u8)
    ensures { bytes.new.items ≡ slice_set bytes.old.items at byte }
{
    if at < bytes.len() {
        bytes[at] = byte;
    }
}

/// Puts a 0 in place of an `Any`, and blanks after it.
fn close(bytes: &mut Vec<u8>, any: Open)
    ensures { bytes.new.items ≡ with_zero bytes.old.items (plain_open any) }
{
    let at = any.at.offset as usize;
    put(bytes, at, b'0');
    put(bytes, at + 1, b' ');
    put(bytes, at + 2, b' ');
}

/// The bytes with each open value closed.
pub(crate) fn closed_bytes(alloc: Global, bytes: &[u8], opens: &[Open]) -> Result<Vec<u8>, Memory>
    ensures { IfOk result (λ closed. closed.items ≡ closed_bytes_spec bytes.now (map plain_open opens.now)) }
{
    let mut closed = bytes.to_vec(alloc)?;
    for any in opens {
        close(&mut closed, *any);
    }
    Ok(closed)
}
