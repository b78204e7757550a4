ghost use Rattle.std.specs.Prelude.{◌≡◌, ◌≤◌, ◌<◌, ◌++◌, IsTrue, length, take};
ghost use Rattle.pc_common.specs.Faults.{Rose};
ghost use Rattle.pc_common.specs.Writes.{Writes};

use super::failed::Failed;
use super::sink::Sink;

/// Writes the first bytes of the piece, as many as go out before a call fails, and returns how many.
pub(crate) fn send<K: Sink>(sink: &mut K, piece: &[u8]) -> usize
    ensures same_modelled { (K.view sink.new).modelled ≡ (K.view sink.old).modelled }
    ensures count { (K.view sink.old).faults ≤ (K.view sink.new).faults }
    ensures within { result ≤ length piece.now }
    ensures cause { result < length piece.now → Rose (K.view sink.old).faults (K.view sink.new).faults }
    ensures bytes { IsTrue (K.view sink.old).modelled → (K.view sink.new).taken ≡ (K.view sink.old).taken
        ++ take result piece.now }
{
    let mut at = 0;
    while at < piece.len() {
        match sink.write(&piece[at..]) {
            Ok(n) => at += n,
            Err(Failed) => return at,
        }
    }
    at
}

/// Writes the whole piece. Takes no memory. Where a call fails, the first bytes of the piece went
/// out, but not all of them.
pub fn write_all<K: Sink>(sink: &mut K, piece: &[u8]) -> Result<(), Failed>
    ensures { Writes K.view sink.old sink.new result piece.now }
{
    if send(sink, piece) < piece.len() {
        return Err(Failed);
    }
    Ok(())
}
