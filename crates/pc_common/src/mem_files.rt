ghost use Rattle.std.specs.Prelude.{◌≡◌, ◌<◌, ◌≤◌, ◌++◌, ◌&&◌, true, not, is_some, is_ok, IsTrue, IsSome, IsOk, IfOk, OnOk, None, Some, length, take, min, refl};
ghost use Rattle.pc_common.specs.Held.{held_bytes};
ghost use Rattle.pc_common.specs.Shelf.{left_of};
ghost use Rattle.pc_common.specs.Faults.{is_none_listed};
ghost use Rattle.pc_common.specs.Schedule.{after_call, is_next_listed};

use super::failed::Failed;
use super::files::Files;
use super::held::Held;
use super::memory::Memory;
use super::schedule::{Calls, Schedule};
use super::shelf::Shelf;
use std::alloc::Global;

/// Files in memory, of which chosen calls fail. `start` and `read` are numbered together, from 1.
///
/// A name that was not given is missing. A `read` moves as many bytes as fit, at most a step.
/// Where no call is to fail, only a missing name does.
pub struct MemFiles {
    shelf: Shelf,
    schedule: Schedule,
    step: usize,
    ghost moves: { 0 < step },
}

// By hand: docs/DECISIONS.md, "Drops are written by hand".
impl Drop for MemFiles {
    fn drop(self) {
        let MemFiles {
            shelf: _,
            schedule: _,
            step: _,
        } = self;
    }
}

impl MemFiles {
    /// Files of these names and bytes; the calls of these numbers fail.
    pub fn new(_alloc: Global, held: Held, fails: Calls) -> Result<MemFiles, Memory>
        ensures shelf { IfOk result (λ files. files.shelf ≡ record { held = held; started = None }) }
        ensures schedule { IfOk result (λ files. files.schedule ≡ record { fails = fails; calls = 0; faults = 0 }) }
        ensures step { IfOk result (λ files. files.step ≡ usize.MAX) }
    {
        Ok(MemFiles {
            shelf: Shelf::new(held),
            schedule: Schedule::new(fails),
            step: usize::MAX,
        })
    }

    /// The same, but a `read` moves at most `c` bytes, which is at least 1.
    pub fn with_step(mut self, c: usize) -> MemFiles
        requires { 0 < c }
        ensures shelf { result.shelf ≡ self.shelf }
        ensures schedule { result.schedule ≡ self.schedule }
        ensures step { result.step ≡ c }
    {
        self.step = c;
        self
    }

    /// How many calls failed.
    pub fn faults(&self) -> u64
        ensures { result ≡ self.now.schedule.faults }
    {
        self.schedule.faults()
    }
}

impl Files for MemFiles {
    ghost view = { λ files. record {
      modelled = true;
      holds = held_bytes files.shelf.held;
      left = left_of files.shelf;
      started = is_some files.shelf.started;
      faults = files.schedule.faults;
      only_missing_fail = is_none_listed files.schedule.fails;
    } };

    ghost failing_modelled = { λ files failing. refl };

    fn start(&mut self, name: &str) -> Result<(), Failed>
        ensures exact { is_ok result
            ≡ (not (is_next_listed self.old.schedule) && is_some (held_bytes self.old.shelf.held name.now)) }
        ensures counted { self.new.schedule ≡ after_call self.old.schedule (is_ok result) }
        ensures count { self.old.schedule.faults ≤ self.new.schedule.faults }
        ensures same_held { self.new.shelf.held ≡ self.old.shelf.held }
        ensures same_step { self.new.step ≡ self.old.step }
        ensures starts { is_some self.new.shelf.started ≡ is_ok result }
        ensures sure { IsTrue (is_none_listed self.old.schedule.fails) →
            IsSome (held_bytes self.old.shelf.held name.now) → IsOk result }
        ensures whole { OnOk result (held_bytes self.old.shelf.held name.now ≡ Some (left_of self.new.shelf)) }
    {
        let is_due = self.schedule.is_due();
        match self.shelf.place_of(name) {
            Some(file) if !is_due => {
                self.shelf.open(file);
                Ok(())
            }
            _ => {
                self.shelf.close();
                Err(self.schedule.fault())
            }
        }
    }

    fn read(&mut self, buf: &mut [u8]) -> Result<usize, Failed>
        ensures exact { is_ok result ≡ not (is_next_listed self.old.schedule) }
        ensures counted { self.new.schedule ≡ after_call self.old.schedule (is_ok result) }
        ensures count { self.old.schedule.faults ≤ self.new.schedule.faults }
        ensures same_held { self.new.shelf.held ≡ self.old.shelf.held }
        ensures same_step { self.new.step ≡ self.old.step }
        ensures starts { IsTrue (is_some self.old.shelf.started) → is_some self.new.shelf.started ≡ is_ok result }
        ensures sure { IsTrue (is_none_listed self.old.schedule.fails) → IsOk result }
        ensures moved { let left = left_of self.old.shelf in
            IfOk result (λ n. n ≡ min self.old.step (min (length buf.old) (length left))) }
        ensures bytes { IfOk result (λ n. left_of self.old.shelf ≡ take n buf.new ++ left_of self.new.shelf) }
    {
        if self.schedule.is_due() {
            self.shelf.close();
            return Err(self.schedule.fault());
        }
        Ok(self.shelf.next(buf, self.step))
    }
}
