ghost use Rattle.std.specs.Prelude.{◌≡◌, ◌≤◌, ◌<◌, ◌==◌, length, not};
ghost use Rattle.std.specs.List.{suffix_len};
ghost use Rattle.pc_common.specs.LineColumn.{line_of, column_of};

use super::place::Place;

/// The line and the column of a place, both from 1: the line is one more than the LF bytes before
/// the place, the column counts bytes in that line. Takes no memory.
pub fn line_col(bytes: &[u8], place: Place) -> (u32, u32)
    requires within { place.offset ≤ length bytes.now }
    requires short { length bytes.now < 4294967295 }
    ensures line { result.0 ≡ line_of bytes.now place.offset }
    ensures column { result.1 ≡ column_of bytes.now place.offset }
{
    let before = &bytes[..place.offset as usize];
    let line = before.iter().filter(|b| **b == b'\n').count() + 1;
    let column = tail_len(before) + 1;
    (line as u32, column as u32)
}

/// How many bytes stand after the last LF, or in all where there is none.
fn tail_len(before: &[u8]) -> usize
    ensures value { result ≡ suffix_len (λ b. not (b == 10)) before.now }
    ensures bound { result ≤ length before.now }
{
    let mut start = before.len();
    while start > 0 && before[start - 1] != b'\n' {
        start -= 1;
    }
    before.len() - start
}
