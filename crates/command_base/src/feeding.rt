ghost use Rattle.std.specs.Prelude.{◌≡◌, ◌≢◌, ◌<◌, Err, length, IsTrue, IfOk};
ghost use Rattle.pc_common.specs.Faults.{Rose};
ghost use Rattle.pc_common.specs.Reads.{Reads};
ghost use Rattle.command_base.specs.declared.feed_end.FeedEnd.TheVariants.{ReadFault as a_read_fault};
ghost use Rattle.command_base.specs.Feeding.{TookLeft};

use super::feed_end::FeedEnd;
use super::text_check::TextCheck;
use pc_common::{Files, MAX_CERTIFICATE};

/// How many bytes of a third file are asked for in one call. Each text pays for the room, and most are shorter.
pub const PIECE: usize = 2048;

/// How many bytes of a third file are read at most: one more than a certificate may have.
pub const MOST: usize = MAX_CERTIFICATE + 1;

/// Feeds the checker what is left of the file that was started, to its end or to `limit` bytes, by pieces of the
/// length of `buf`. `ReadFault` where a call of the files fails, whatever was read before.
pub fn feed_rest<C: TextCheck, F: Files>(
    files: &mut F,
    buf: &mut [u8],
    limit: usize,
    mut checker: C,
) -> Result<C, FeedEnd>
    requires room { 0 < length buf.old }
    requires started { IsTrue (F.view files.old).started }
    ensures keeps { Reads F.view files.old files.new }
    ensures took { IfOk result (λ c. TookLeft C.is_fed checker c limit (F.view files.old) (F.view files.new)) }
    ensures cause { result ≡ Err a_read_fault → Rose (F.view files.old).faults (F.view files.new).faults }
    ensures sure { IsTrue (F.view files.old).only_missing_fail → result ≢ Err a_read_fault }
{
    let mut left = limit;
    while left > 0 {
        let most = buf.len().min(left);
        let n = files.read(&mut buf[..most])?;
        if n == 0 {
            return Ok(checker);
        }
        checker = checker.take_piece(&buf[..n])?;
        left -= n;
    }
    Ok(checker)
}
