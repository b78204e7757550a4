ghost use Rattle.std.specs.Prelude.{◌≡◌, ◌≤◌, ◌<◌, ◌+◌, [], length, IsOk, OnOk};
ghost use Rattle.std.specs.List.{flat_map};
ghost use Rattle.pc_common.specs.Room.{waits, Puts, Flushes};

use super::failed::Failed;
use super::sink::Sink;
use super::waiting::Waiting;
use super::writing::send;

/// A room of 4,096 bytes in front of a sink.
///
/// What is put into it goes out when the room is full and more is put, and the rest when the room is
/// flushed; what still waits when the room is dropped is lost. Where handing on fails, the bytes that
/// the sink did not take wait on, in their order.
#[derive(Drop)]
pub struct Room<'a, K> {
    out: &'a mut K,
    waiting: Waiting,
}

impl<'a, K: Sink> Room<'a, K> {
    /// An empty room in front of the sink. Takes no memory.
    pub fn new(out: &'a mut K) -> Room<'a, K>
        ensures same_sink { result.out.ghost_name ≡ out.entry.ghost_name }
        ensures out { result.out.now ≡ out.old }
        ensures empty { waits result ≡ [] }
    {
        Room {
            out,
            waiting: Waiting::new(),
        }
    }

    /// Puts the piece after what waits. A full room is handed on where more is put; where that fails,
    /// the first bytes of the piece were put, but not all of them.
    ///
    /// A piece that has space after what waits is put without a call of the sink.
    pub fn put(&mut self, piece: &[u8]) -> Result<(), Failed>
        ensures puts { Puts K.view self.old self.new result piece.now }
        ensures fits { self.old.waiting.used + length piece.now ≤ 4096
            → IsOk result × (self.new.out.now ≡ self.old.out.now) }
    {
        let mut at = 0;
        while at < piece.len() {
            self.make_space()?;
            at += self.waiting.put(&piece[at..]);
        }
        Ok(())
    }

    /// Puts the pieces after what waits, one after another. Where handing on fails, the first bytes of them
    /// were put, but not all.
    pub fn put_all(&mut self, pieces: &[&[u8]]) -> Result<(), Failed>
        ensures { Puts K.view self.old self.new result (flat_map (λ p. p.now) pieces.now) }
    {
        for piece in pieces {
            self.put(piece)?;
        }
        Ok(())
    }

    /// Hands on what waits. Where a call of the sink fails, the bytes that it did not take wait on.
    pub fn flush(&mut self) -> Result<(), Failed>
        ensures { Flushes K.view self.old self.new result }
    {
        let waiting = self.waiting.as_slice().len();
        let sent = send(self.out, self.waiting.as_slice());
        self.waiting.drop_front(sent);
        if sent < waiting {
            return Err(Failed);
        }
        Ok(())
    }

    // Hands on a full room. A room that is not full stays as it is.
    fn make_space(&mut self) -> Result<(), Failed>
        ensures full { self.old.waiting.used ≡ 4096 → Flushes K.view self.old self.new result }
        ensures kept { self.old.waiting.used < 4096 → IsOk result × (self.new ≡ self.old) }
        ensures space { OnOk result (self.new.waiting.used < 4096) }
    {
        if self.waiting.is_full() {
            return self.flush();
        }
        Ok(())
    }
}
