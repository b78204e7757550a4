ghost use Rattle.std.specs.Prelude.{◌≡◌, ◌≢◌, ◌≤◌, ◌<◌, ◌+◌, ◌++◌, ◌↔◌, List, ℕ, Err, None, Some, length, vec_len, IsTrue, IfOk, OnOk};
ghost use Rattle.pc_common.specs.declared.reading.ReadEnd.TheVariants.{ReadFault, TooLarge};
ghost use Rattle.pc_common.specs.Faults.{Rose};
ghost use Rattle.pc_common.specs.Reads.{Reads, HoldsMore, StopsPast};

use super::failed::Failed;
use super::files::Files;
use std::alloc::{AllocError, Global};
use thiserror::Error;

/// Why a file could not be read whole.
#[derive(Clone, Copy, Debug, PartialEq, Eq, Error)]
pub enum ReadEnd {
    /// A call of the files failed.
    #[error("the file could not be read")]
    ReadFault,
    /// The file holds more bytes than the limit.
    #[error("the file is larger than its limit")]
    TooLarge,
    /// Memory was refused.
    #[error("out of memory")]
    Memory,
}

impl From<Failed> for ReadEnd {
    ghost from_gives = { λ _ e. e ≡ ReadFault };

    fn from(_: Failed) -> Self {
        ReadEnd::ReadFault
    }
}

impl From<AllocError> for ReadEnd {
    ghost use Rattle.pc_common.specs.declared.reading.ReadEnd.TheVariants.{Memory};

    ghost from_gives = { λ _ e. e ≡ Memory };

    fn from(_: AllocError) -> Self {
        ReadEnd::Memory
    }
}

/// How many bytes are asked for in one call.
const PIECE: usize = 8192;

/// All bytes of the named file, at most `limit`, which is below 2^32.
///
/// Memory grows with the file and not with the limit, and at most `limit + 1` bytes are read.
/// `ReadFault` where a call of the files fails, `TooLarge` where the file holds more than the limit.
pub fn read_all<F: Files>(
    alloc: Global,
    files: &mut F,
    name: &str,
    limit: usize,
) -> Result<Vec<u8>, ReadEnd>
    requires { limit < 4294967296 }
    ensures keeps { Reads F.view files.old files.new }
    ensures within { IfOk result (λ bytes. vec_len bytes ≤ limit) }
    ensures whole { IfOk result (λ bytes. IsTrue (F.view files.old).modelled →
        (F.view files.old).holds name.now ≡ Some bytes.items) }
    ensures too_large { result ≡ Err TooLarge → HoldsMore (F.view files.old) name.now limit }
    ensures stops { result ≡ Err TooLarge → StopsPast (F.view files.old) (F.view files.new) name.now limit }
    ensures cause { result ≡ Err ReadFault → Rose (F.view files.old).faults (F.view files.new).faults }
    ensures sure { IsTrue (F.view files.old).only_missing_fail →
        (result ≡ Err ReadFault) ↔ ((F.view files.old).holds name.now ≡ None) }
{
    files.start(name)?;
    let mut piece = [0; PIECE];
    read_rest(alloc, files, &mut piece, limit)
}

/// All that is left of the file that was started, read by pieces of the length of `buf`.
fn read_rest<F: Files>(
    alloc: Global,
    files: &mut F,
    buf: &mut [u8],
    limit: usize,
) -> Result<Vec<u8>, ReadEnd>
    requires limit { limit < 4294967296 }
    requires room { 0 < length buf.old }
    requires started { IsTrue (F.view files.old).started }
    ensures keeps { Reads F.view files.old files.new }
    ensures within { IfOk result (λ bytes. vec_len bytes ≤ limit) }
    ensures whole { IfOk result (λ bytes. IsTrue (F.view files.old).modelled → (F.view files.old).left ≡ bytes.items) }
    ensures too_large { result ≡ Err TooLarge → IsTrue (F.view files.old).modelled
        → limit < length (F.view files.old).left }
    ensures stops { result ≡ Err TooLarge → IsTrue (F.view files.old).modelled →
        (read : List ℕ) × (length read ≡ limit + 1)
        × ((F.view files.old).left ≡ read ++ (F.view files.new).left) }
    ensures cause { result ≡ Err ReadFault → Rose (F.view files.old).faults (F.view files.new).faults }
    ensures sure { IsTrue (F.view files.old).only_missing_fail → result ≢ Err ReadFault }
{
    let mut bytes = Vec::new(alloc);
    loop {
        let most = buf.len().min(limit + 1 - bytes.len());
        let n = files.read(&mut buf[..most])?;
        if n == 0 {
            return Ok(bytes);
        }
        if n > limit - bytes.len() {
            return Err(ReadEnd::TooLarge);
        }
        bytes.extend_from_slice(&buf[..n])?;
    }
}
