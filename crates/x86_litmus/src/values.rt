ghost use Rattle.std.specs.Prelude.{◌≡◌, ◌∷◌, ◌++◌, ◌<◌, ◌^◌, [], None, Some, length, slice_get, OnOk};
ghost use Rattle.x86_litmus.specs.Faults.{value_at};

use indexmap::IndexMap;
use pc_common::Memory;
use std::alloc::Global;
use std::marker::Model;

/// Locations with the values that a listing states for them, in text order and looked up by name.
pub(crate) struct Values<'a> {
    by_name: IndexMap<&'a [u8], u64>,
}

// By hand: docs/DECISIONS.md, "Drops are written by hand".
impl Drop for Values<'_> {
    fn drop(self) {
        let Values { by_name: _ } = self;
    }
}

impl<'a> Model for Values<'a> {
    ghost use Rattle.std.specs.Prelude.{List, map, ℕ};
    ghost use Rattle.x86_litmus.specs.Values.{plain_entry};

    ghost Value = { List (List ℕ × ℕ) };

    ghost view = { λ s. map plain_entry s.by_name.entries };
}

impl<'a> Values<'a> {
    /// No values. Takes no memory.
    pub(crate) fn new(alloc: Global) -> Self
        ensures { result ≡ [] }
    {
        Values {
            by_name: IndexMap::new(alloc),
        }
    }

    /// The value that is stated for this location. One look-up.
    pub(crate) fn get(&self, word: &[u8]) -> Option<u64>
        ensures { result ≡ value_at self.now word.now }
    {
        self.by_name.get(word).copied()
    }

    /// Takes one more, for a location that has none.
    pub(crate) fn add(&mut self, word: &'a [u8], value: u64) -> Result<(), Memory>
        requires { value_at self.old word.now ≡ None }
        ensures { OnOk result (self.new ≡ self.old ++ (word.now, value) ∷ []) }
    {
        self.by_name.insert(word, value)?;
        Ok(())
    }

    pub(crate) fn len(&self) -> usize
        ensures value { result ≡ length self.now }
        ensures bound { length self.now < 2 ^ 63 }
    {
        self.by_name.len()
    }

    /// The location of place `k`, from 0, and its value.
    pub(crate) fn entry(&self, k: usize) -> (&'a [u8], u64)
        requires { k < length self.now }
        ensures { slice_get self.now k ≡ Some (result.0.now, result.1) }
    {
        match self.by_name.get_index(k) {
            Some((word, value)) => (*word, *value),
            None => unreachable!(),
        }
    }
}
