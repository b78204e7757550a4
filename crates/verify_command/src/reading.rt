ghost use Rattle.std.specs.Prelude.{◌≡◌, ◌≢◌, ◌<◌, ◌≤◌, ◌+◌, ◌++◌, ◌↔◌, Err, None, Some, length, IsTrue, IfOk, OnOk};
ghost use Rattle.pc_common.specs.Faults.{Rose};
ghost use Rattle.pc_common.specs.Reads.{Reads};
ghost use Rattle.pc_common.specs.declared.limits.TheConstants.{MAX_CERTIFICATE};
ghost use Rattle.command_base.specs.declared.feed_end.FeedEnd.TheVariants.{ReadFault as a_read_fault};
ghost use Rattle.command_base.specs.Feeding.{TookFirst};
ghost use Rattle.verify_command.specs.Reading.{IsEnough, TookFile};

use command_base::{FeedEnd, MOST, PIECE, TextCheck, feed_rest};
use lifted_check::LiftedChecker;
use pc_common::Files;
use std::alloc::Global;

/// How many bytes tell whether the first line is `unobservable`: its own, with the LF.
const ENOUGH: usize = 13;

/// The first bytes of the named file: enough to tell whether its first line is `unobservable`, or all of it. What is
/// read with them is kept, which is at most one piece more. `ReadFault` where a call of the files fails.
pub(crate) fn first_bytes<F: Files>(
    alloc: Global,
    files: &mut F,
    name: &str,
) -> Result<Vec<u8>, FeedEnd>
    ensures keeps { Reads F.view files.old files.new }
    ensures started { OnOk result (IsTrue (F.view files.new).started) }
    ensures within { IfOk result (λ first. length first.items ≤ MAX_CERTIFICATE + 1) }
    ensures whole { IfOk result (λ first. IsTrue (F.view files.old).modelled →
        (F.view files.old).holds name.now ≡ Some (first.items ++ (F.view files.new).left)) }
    ensures enough { IfOk result (λ first. IsTrue (F.view files.old).modelled
        → IsEnough first.items (F.view files.new).left) }
    ensures cause { result ≡ Err a_read_fault → Rose (F.view files.old).faults (F.view files.new).faults }
    ensures sure { IsTrue (F.view files.old).only_missing_fail → (result ≡ Err a_read_fault)
        ↔ ((F.view files.old).holds name.now ≡ None) }
{
    files.start(name)?;
    let mut piece = [0; PIECE];
    read_first(alloc, files, &mut piece)
}

/// The first bytes of the file that was started, read by pieces of the length of `buf` until they are enough or the
/// file ends.
fn read_first<F: Files>(alloc: Global, files: &mut F, buf: &mut [u8]) -> Result<Vec<u8>, FeedEnd>
    requires room { 0 < length buf.old }
    requires started { IsTrue (F.view files.old).started }
    ensures keeps { Reads F.view files.old files.new }
    ensures started { OnOk result (IsTrue (F.view files.new).started) }
    ensures within { IfOk result (λ first. length first.items ≤ MAX_CERTIFICATE + 1) }
    ensures bytes { IfOk result (λ first. IsTrue (F.view files.old).modelled
        → (F.view files.old).left ≡ first.items ++ (F.view files.new).left) }
    ensures enough { IfOk result (λ first. IsTrue (F.view files.old).modelled
        → IsEnough first.items (F.view files.new).left) }
    ensures cause { result ≡ Err a_read_fault → Rose (F.view files.old).faults (F.view files.new).faults }
    ensures sure { IsTrue (F.view files.old).only_missing_fail → result ≢ Err a_read_fault }
{
    let mut bytes = Vec::new(alloc);
    while bytes.len() < ENOUGH {
        let most = buf.len().min(MOST - bytes.len());
        let n = files.read(&mut buf[..most])?;
        if n == 0 {
            return Ok(bytes);
        }
        bytes.extend_from_slice(&buf[..n])?;
    }
    Ok(bytes)
}

/// Feeds the checker the first bytes of a file that was started, and then what is left of it, to its end or to one
/// byte past 67,108,864. No more is read, and no text is kept; where the first bytes are few, they are all of the file.
/// `ReadFault` where a call of the files fails, whatever was read before.
pub(crate) fn feed_file<C: TextCheck, F: Files>(
    files: &mut F,
    first: &[u8],
    checker: C,
) -> Result<C, FeedEnd>
    requires started { IsTrue (F.view files.old).started }
    requires within { length first.now ≤ MAX_CERTIFICATE + 1 }
    ensures keeps { Reads F.view files.old files.new }
    ensures took { IfOk result (λ c. IsTrue (F.view files.old).modelled
        → IsEnough first.now (F.view files.old).left
        → TookFirst C.is_fed checker c (MAX_CERTIFICATE + 1) (first.now ++ (F.view files.old).left)
        (F.view files.new).left) }
    ensures cause { result ≡ Err a_read_fault → Rose (F.view files.old).faults (F.view files.new).faults }
    ensures sure { IsTrue (F.view files.old).only_missing_fail → result ≢ Err a_read_fault }
{
    let checker = checker.take_piece(first)?;
    if first.len() < ENOUGH {
        return Ok(checker);
    }
    let mut piece = [0; PIECE];
    feed_rest(files, &mut piece, MOST - first.len(), checker)
}

/// Feeds the checker what the named file holds, to its end or to one byte past 67,108,864. No more is read, and
/// no text is kept. `ReadFault` where a call of the files fails, whatever was read before.
pub(crate) fn feed_named<'a, F: Files>(
    files: &mut F,
    name: &str,
    checker: LiftedChecker<'a>,
) -> Result<LiftedChecker<'a>, FeedEnd>
    ensures keeps { Reads F.view files.old files.new }
    ensures took { IfOk result (λ c. IsTrue (F.view files.old).modelled
        → TookFile checker.entry c ((F.view files.old).holds name.now) (F.view files.new).left) }
    ensures cause { result ≡ Err a_read_fault → Rose (F.view files.old).faults (F.view files.new).faults }
    ensures sure { IsTrue (F.view files.old).only_missing_fail
        → (result ≡ Err a_read_fault) ↔ ((F.view files.old).holds name.now ≡ None) }
{
    files.start(name)?;
    let mut piece = [0; PIECE];
    feed_rest(files, &mut piece, MOST, checker)
}
