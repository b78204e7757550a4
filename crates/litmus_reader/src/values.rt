ghost use Rattle.std.specs.Prelude.{◌≡◌, ◌<◌, ◌^◌, List, [], ◌∷◌, ◌++◌, Some, map, length, slice_get, IfOk, OnOk};
ghost use Rattle.pc_case.specs.declared.stated.Stated.{Stated as StatedPair};
ghost use Rattle.litmus_reader.specs.Values.{stated_entry, IsUnstated, IsValueAt};

use indexmap::IndexMap;
use pc_case::{Address, Stated, StatedValues};
use pc_common::{Listed, Memory, Value};
use std::alloc::Global;
use std::marker::Model;

/// The values that lines of one kind state, in text order and looked up by address.
pub(crate) struct Values {
    by_address: IndexMap<Address, Value>,
}

// By hand: docs/DECISIONS.md, "Drops are written by hand".
impl Drop for Values {
    fn drop(self) {
        let Values { by_address: _ } = self;
    }
}

impl Model for Values {
    ghost use Rattle.std.specs.Prelude.{List, map};
    ghost use Rattle.pc_case.specs.declared.stated.Stated.{Stated as StatedPair};
    ghost use Rattle.litmus_reader.specs.Values.{stated_entry};

    ghost Value = { List StatedPair };

    ghost view = { λ v. map stated_entry v.by_address.entries };
}

impl Values {
    pub(crate) fn new(alloc: Global) -> Self
        ensures { result ≡ [] }
    {
        Values {
            by_address: IndexMap::new(alloc),
        }
    }

    /// The value that a line states at this address. One look-up.
    pub(crate) fn get(&self, pa: Address) -> Option<Value>
        ensures { IsValueAt self.now pa result }
    {
        self.by_address.get(&pa).copied()
    }

    /// Takes one more line, for an address that none has stated.
    pub(crate) fn add(&mut self, pa: Address, value: Value) -> Result<(), Memory>
        requires { IsUnstated self.old pa }
        ensures { OnOk result (self.new ≡ self.old ++ record { pa = pa; value = value } ∷ []) }
    {
        self.by_address.insert(pa, value)?;
        Ok(())
    }

    /// The lines in text order.
    pub(crate) fn listed(&self, alloc: Global) -> Result<StatedValues, Memory>
        ensures { IfOk result (λ lines. lines ≡ self.now) }
    {
        let mut lines = Listed::new(alloc);
        for k in 0..self.len() {
            lines.push(self.line_at(k))?;
        }
        Ok(lines)
    }

    fn len(&self) -> usize
        ensures value { result ≡ length self.now }
        ensures bound { length self.now < 2 ^ 63 }
    {
        self.by_address.len()
    }

    /// The line at `k`, from 0.
    fn line_at(&self, k: usize) -> Stated
        requires { k < length self.now }
        ensures { slice_get self.now k ≡ Some result }
    {
        match self.by_address.get_index(k) {
            Some((pa, value)) => Stated {
                pa: *pa,
                value: *value,
            },
            None => unreachable!(),
        }
    }
}
