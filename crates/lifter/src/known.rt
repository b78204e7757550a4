ghost use Rattle.std.specs.Prelude.{◌≡◌, [], ℕ, MatchOption, OnOk, length, take};
ghost use Rattle.pc_common.specs.Elements.{In};
ghost use Rattle.refutation.specs.BranchFacts.{plain_branch_fact};
ghost use Rattle.lifter.specs.KnownFacts.{entry, HasMarked};

use indexmap::IndexMap;
use pc_common::Memory;
use refutation::BranchFact;
use std::alloc::Global;
use std::marker::Model;

/// What is known on the branch of the ground tree, as keys with the numbers of the lifted facts that say it, in the
/// order in which they came, cut back like a stack. Of positions only Ors are keys, and none has the sign `~`, since
/// the steps are of version 1.
pub(crate) struct Known {
    map: IndexMap<BranchFact, u64>,
}

// By hand: docs/DECISIONS.md, "Drops are written by hand".
impl Drop for Known {
    fn drop(self) {
        let Known { map: _ } = self;
    }
}

impl Model for Known {
    ghost use Rattle.std.specs.Prelude.{List};
    ghost use Rattle.lifter.specs.KnownFacts.{Entry, entries_of};

    ghost Value = { List Entry };

    ghost view = { λ s. entries_of s.map.entries };
}

impl Known {
    /// No keys. Takes no memory.
    pub(crate) fn new(alloc: Global) -> Known
        ensures { result ≡ [] }
    {
        Known {
            map: IndexMap::new(alloc),
        }
    }

    /// How many keys there are. Takes no memory.
    pub(crate) fn len(&self) -> usize
        ensures { result ≡ length self.now }
    {
        self.map.len()
    }

    /// The number that stands beside a key, None where the key is not known. One look-up; takes no memory.
    pub(crate) fn get(&self, key: BranchFact) -> Option<u64>
        ensures { MatchOption result ((k : ℕ) → In (entry (plain_branch_fact key) k) self.now → ⊥)
            (λ k. In (entry (plain_branch_fact key) k) self.now) }
    {
        self.map.get(&key).copied()
    }

    /// Adds a key with its number after the others, if it is none of them.
    pub(crate) fn add(&mut self, key: BranchFact, number: u64) -> Result<(), Memory>
        ensures { OnOk result (HasMarked self.old (plain_branch_fact key) number self.new) }
    {
        match self.get(key) {
            Some(_) => Ok(()),
            None => {
                self.map.insert(key, number)?;
                Ok(())
            }
        }
    }

    /// Keeps the first `count` keys. Takes no memory.
    pub(crate) fn truncate(&mut self, count: usize)
        ensures { self.new ≡ take count self.old }
    {
        self.map.truncate(count);
    }
}
