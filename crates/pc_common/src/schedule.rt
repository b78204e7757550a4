ghost use Rattle.std.specs.Prelude.{◌≡◌, ◌≤◌, false, IsTrue};
ghost use Rattle.pc_common.specs.Faults.{Rose, is_none_listed, one_more};
ghost use Rattle.pc_common.specs.Schedule.{is_next_listed};

use super::failed::Failed;
use super::listed::Listed;

/// A list of numbers of calls. The first call of an object has the number 1.
pub type Calls = Listed<u64>;

/// Which calls of an object are to fail, how many calls it had, and how many of them failed.
/// Both counts stay at the greatest u64.
pub struct Schedule {
    fails: Calls,
    calls: u64,
    faults: u64,
}

// By hand: docs/DECISIONS.md, "Drops are written by hand".
impl Drop for Schedule {
    fn drop(self) {
        let Schedule {
            fails: _,
            calls: _,
            faults: _,
        } = self;
    }
}

impl Schedule {
    pub fn new(fails: Calls) -> Self
        ensures { result ≡ record { fails = fails; calls = 0; faults = 0 } }
    {
        Schedule {
            fails,
            calls: 0,
            faults: 0,
        }
    }

    /// Counts a call, and returns whether it is to fail.
    pub fn is_due(&mut self) -> bool
        ensures listed { result ≡ is_next_listed self.old }
        ensures counted { self.new ≡ record self.old { calls = one_more self.old.calls } }
        ensures none_listed { IsTrue (is_none_listed self.old.fails) → result ≡ false }
    {
        self.calls = self.calls.saturating_add(1);
        let number = self.calls;
        self.fails.as_slice().iter().any(|k| *k == number)
    }

    /// Counts a fault.
    pub fn fault(&mut self) -> Failed
        ensures counted { self.new ≡ record self.old { faults = one_more self.old.faults } }
        ensures rose { Rose self.old.faults self.new.faults }
        ensures count { self.old.faults ≤ self.new.faults }
    {
        self.faults = self.faults.saturating_add(1);
        Failed
    }

    pub fn faults(&self) -> u64
        ensures { result ≡ self.now.faults }
    {
        self.faults
    }
}
