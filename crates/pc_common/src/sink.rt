ghost use Rattle.std.specs.Prelude.{◌≡◌, ◌≤◌, ◌<◌, ◌++◌, length, take, IsTrue, IfOk, OnErr};
ghost use Rattle.pc_common.specs.Faults.{Rose};
ghost use Rattle.pc_common.specs.Outside.{SinkView};

use super::failed::Failed;

/// What takes bytes, one piece after another.
///
/// No call changes whether the bytes taken are modelled.
pub trait Sink {
    /// What contracts see of the sink.
    ghost view: { Self → SinkView };

    /// Takes the first bytes of the piece, and returns how many. It takes at least one of a piece
    /// that is not empty, or fails: otherwise writing the whole piece would not end. Where it fails it took
    /// nothing of this piece.
    fn write(&mut self, piece: &[u8]) -> Result<usize, Failed>
        ensures same_modelled { (view self.new).modelled ≡ (view self.old).modelled }
        ensures count { (view self.old).faults ≤ (view self.new).faults }
        ensures cause { OnErr result (Rose (view self.old).faults (view self.new).faults) }
        ensures within { IfOk result (λ n. n ≤ length piece.now) }
        ensures moves { 0 < length piece.now → IfOk result (λ n. 0 < n) }
        ensures bytes { IfOk result (λ n. IsTrue (view self.old).modelled →
            (view self.new).taken ≡ (view self.old).taken ++ take n piece.now) }
        ensures nothing { OnErr result
            (IsTrue (view self.old).modelled → (view self.new).taken ≡ (view self.old).taken) };
}
