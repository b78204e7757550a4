ghost use Rattle.std.specs.Prelude.{◌≡◌, ◌↔◌, [], ◌∷◌, IsTrue, OnOk, Contains, length, take};
ghost use Rattle.refutation.specs.BranchFacts.{plain_branch_fact};
ghost use Rattle.tree_check.specs.Facts.{HasAdded};

use indexmap::IndexMap;
use pc_common::Memory;
use refutation::BranchFact;
use std::alloc::Global;
use std::marker::Model;

/// A set of facts, in the order in which they came, that is cut back like a stack. No step asks at which position a
/// literal was asserted, so only what it says is kept.
pub(crate) struct Facts {
    // A map without values: above an `IndexSet` in a public type every library carries the contracts of maps and sets.
    set: IndexMap<BranchFact, ()>,
}

// By hand: docs/DECISIONS.md, "Drops are written by hand".
impl Drop for Facts {
    fn drop(self) {
        let Facts { set: _ } = self;
    }
}

impl Model for Facts {
    ghost use Rattle.std.specs.Prelude.{List, map};
    ghost use Rattle.indexmap.specs.IndexMap.{keys};
    ghost use Rattle.refutation.specs.BranchFacts.{PlainBranchFact, plain_branch_fact};

    ghost Value = { List PlainBranchFact };

    ghost view = { λ s. map plain_branch_fact (keys s.set) };
}

impl Facts {
    /// No facts. Takes no memory.
    pub(crate) fn new(alloc: Global) -> Facts
        ensures { result ≡ [] }
    {
        Facts {
            set: IndexMap::new(alloc),
        }
    }

    /// How many facts there are. Takes no memory.
    pub(crate) fn len(&self) -> usize
        ensures { result ≡ length self.now }
    {
        self.set.len()
    }

    /// Whether this is one of the facts. One look-up; takes no memory.
    pub(crate) fn has(&self, fact: BranchFact) -> bool
        ensures { IsTrue result ↔ Contains self.now (plain_branch_fact fact) }
    {
        self.set.contains_key(&fact)
    }

    /// Adds a fact after the others, if it is none of them.
    pub(crate) fn add(&mut self, fact: BranchFact) -> Result<(), Memory>
        ensures { OnOk result (HasAdded self.old (plain_branch_fact fact ∷ []) self.new) }
    {
        self.set.insert(fact, ())?;
        Ok(())
    }

    /// Keeps the first `count` facts. Takes no memory.
    pub(crate) fn truncate(&mut self, count: usize)
        ensures { self.new ≡ take count self.old }
    {
        self.set.truncate(count);
    }
}
