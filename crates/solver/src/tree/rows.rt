ghost use Rattle.std.specs.Prelude.{◌≡◌, ◌<◌, ◌^◌, Some, length, slice_get};

use pc_ground::Row;

/// The row at position `p`, from 0.
pub(crate) fn row_at(rows: &[Row<u32>], p: usize) -> Row<u32>
    requires { p < length rows.now }
    ensures row { slice_get rows.now p ≡ Some result }
    ensures bound { length rows.now < 2 ^ 63 }
{
    rows[p]
}
