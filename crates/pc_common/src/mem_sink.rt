ghost use Rattle.std.specs.Prelude.{◌≡◌, ◌≤◌, ◌<◌, ◌++◌, [], true, length, take, min, ◌&&◌, not, is_ok, IfOk, OnErr, vec_len};
ghost use Rattle.pc_common.specs.Schedule.{after_call, is_next_listed};

use super::failed::Failed;
use super::memory::Memory;
use super::schedule::{Calls, Schedule};
use super::sink::Sink;
use std::alloc::Global;

/// A sink in memory, of which chosen calls fail. Calls are numbered from 1.
///
/// It takes as many bytes of a piece as its room has left, at most a step; a call that can take none
/// of a piece that is not empty fails.
pub struct MemSink {
    room: Vec<u8>,
    used: usize,
    schedule: Schedule,
    step: usize,
    ghost within: { used ≤ vec_len room },
    ghost moves: { 0 < step },
}

// By hand: docs/DECISIONS.md, "Drops are written by hand".
impl Drop for MemSink {
    fn drop(self) {
        let MemSink {
            room: _,
            used: _,
            schedule: _,
            step: _,
        } = self;
    }
}

impl MemSink {
    ghost use Rattle.pc_common.specs.MemSink.{room_left};

    /// An empty sink with room for so many bytes, which is taken here; the calls of these numbers
    /// fail.
    pub fn new(alloc: Global, room: usize, fails: Calls) -> Result<MemSink, Memory>
        ensures room { IfOk result (λ sink. vec_len sink.room ≡ room) }
        ensures used { IfOk result (λ sink. sink.used ≡ 0) }
        ensures schedule { IfOk result (λ sink. sink.schedule ≡ record { fails = fails; calls = 0; faults = 0 }) }
        ensures step { IfOk result (λ sink. sink.step ≡ usize.MAX) }
    {
        Ok(MemSink {
            room: vec![in alloc; 0; room]?,
            used: 0,
            schedule: Schedule::new(fails),
            step: usize::MAX,
        })
    }

    /// The same, but a `write` takes at most `c` bytes, which is at least 1.
    pub fn with_step(mut self, c: usize) -> MemSink
        requires { 0 < c }
        ensures room { result.room ≡ self.room }
        ensures used { result.used ≡ self.used }
        ensures schedule { result.schedule ≡ self.schedule }
        ensures step { result.step ≡ c }
    {
        self.step = c;
        self
    }

    /// All bytes taken.
    pub fn taken(&self) -> &[u8]
        ensures { result.now ≡ take self.now.used self.now.room.items }
    {
        &self.room[..self.used]
    }

    /// How many calls failed.
    pub fn faults(&self) -> u64
        ensures { result ≡ self.now.schedule.faults }
    {
        self.schedule.faults()
    }

    // Takes as many bytes of the piece as go in.
    fn keep(&mut self, piece: &[u8]) -> usize
        ensures moved { result ≡ min self.old.step (min (length piece.now) (room_left self.old)) }
        ensures bytes { take self.new.used self.new.room.items
            ≡ take self.old.used self.old.room.items ++ take result piece.now }
        ensures schedule { self.new.schedule ≡ self.old.schedule }
        ensures step { self.new.step ≡ self.old.step }
        ensures room { vec_len self.new.room ≡ vec_len self.old.room }
    {
        let n = self.step.min(piece.len().min(self.room.len() - self.used));
        let end = self.used + n;
        self.room[self.used..end].copy_from_slice(&piece[..n]);
        self.used = end;
        n
    }
}

impl Sink for MemSink {
    ghost use Rattle.pc_common.specs.MemSink.{has_room_for, room_left};

    ghost view = { λ sink. record {
      modelled = true;
      taken = take sink.used sink.room.items;
      faults = sink.schedule.faults;
    } };

    fn write(&mut self, piece: &[u8]) -> Result<usize, Failed>
        ensures exact { is_ok result ≡ (not (is_next_listed self.old.schedule) && has_room_for self.old piece.now) }
        ensures moved { IfOk result (λ n. n ≡ min self.old.step (min (length piece.now) (room_left self.old))) }
        ensures counted { self.new.schedule ≡ after_call self.old.schedule (is_ok result) }
        ensures count { self.old.schedule.faults ≤ self.new.schedule.faults }
        ensures same_room { vec_len self.new.room ≡ vec_len self.old.room }
        ensures same_step { self.new.step ≡ self.old.step }
        ensures moves { 0 < length piece.now → IfOk result (λ n. 0 < n) }
        ensures bytes { IfOk result (λ n. take self.new.used self.new.room.items
            ≡ take self.old.used self.old.room.items ++ take n piece.now) }
        ensures nothing { OnErr result (take self.new.used self.new.room.items
            ≡ take self.old.used self.old.room.items) }
    {
        if self.schedule.is_due() {
            return Err(self.schedule.fault());
        }
        let n = self.keep(piece);
        if n == 0 && !piece.is_empty() {
            return Err(self.schedule.fault());
        }
        Ok(n)
    }
}
