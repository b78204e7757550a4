ghost use Rattle.std.specs.Prelude.{◌≡◌, ◌<◌, ◌^◌, ◌++◌, ◌∷◌, [], ◌↔◌, Contains, IsTrue, OnOk, OnErr, length, slice_index, take};
ghost use Rattle.solver.specs.Indexed.{slot_of, IsIndexed, IsPut};

use crate::tree::place::Place;
use pc_common::Memory;
use std::alloc::Global;
use std::marker::Model;

/// The positions that are asserted on the first open branch, in order of assertion. Whether one is among
/// them is asked in one step, and a cut touches none that goes: the index may point at any entry, and the
/// entry itself tells whether it is the right one (Briggs and Torczon 1993).
pub(crate) struct Asserted {
    items: Vec<Place>,
    /// Where each position stands: at twice its number, and one behind that under a sign.
    index: Vec<usize>,
}

// By hand: docs/DECISIONS.md, "Drops are written by hand".
impl Drop for Asserted {
    fn drop(self) {
        let Asserted { items: _, index: _ } = self;
    }
}

impl Model for Asserted {
    ghost use Rattle.std.specs.Prelude.{List};
    ghost use Rattle.solver.specs.declared.tree.place.Place.{Place};
    ghost use Rattle.solver.specs.Indexed.{IsIndexed};

    ghost Value = { List Place };

    ghost view = { λ s. s.items.items };

    ghost invariant = { λ s. IsIndexed s.items.items s.index.items };
}

/// Whether the two are one.
fn is_same(a: Place, b: Place) -> bool
    ensures { IsTrue result ↔ (a ≡ b) }
{
    a.position == b.position && a.negated == b.negated
}

/// Where the index speaks of the place.
fn slot_of(place: Place) -> usize
    requires { place.position < 2 ^ 63 }
    ensures { result ≡ slot_of place }
{
    if place.negated {
        2 * place.position + 1
    } else {
        2 * place.position
    }
}

/// What the index says of the place: 0 past its end.
fn index_at(index: &[usize], place: Place) -> usize
    ensures { result ≡ slice_index index.now (slot_of place) }
{
    if place.position >= index.len() {
        return 0;
    }
    let slot = slot_of(place);
    if slot < index.len() { index[slot] } else { 0 }
}

/// Puts `k` into the index at this slot. The index grows up to it.
fn put_at(index: &mut Vec<usize>, slot: usize, k: usize) -> Result<(), Memory>
    ensures put { OnOk result (IsPut index.old.items slot k index.new.items) }
    ensures err { OnErr result (index.new.items ≡ index.old.items) }
{
    if slot >= index.len() {
        index.resize(slot.saturating_add(1), 0)?;
    }
    index[slot] = k;
    Ok(())
}

/// Whether the place is on the list.
fn is_on(items: &[Place], index: &[usize], place: Place) -> bool
    requires { IsIndexed items.now index.now }
    ensures { IsTrue result ↔ Contains items.now place }
{
    let k = index_at(index, place);
    k < items.len() && is_same(items[k], place)
}

/// Has the index say of the place where it stands on the list with it last.
fn note(items: &[Place], index: &mut Vec<usize>, place: Place) -> Result<(), Memory>
    requires small { place.position < 2 ^ 63 }
    requires indexed { IsIndexed items.now index.old.items }
    ensures indexed { IsIndexed items.now index.new.items }
    ensures noted { OnOk result (IsIndexed (items.now ++ place ∷ []) index.new.items) }
{
    if is_on(items, index, place) {
        return Ok(());
    }
    put_at(index, slot_of(place), items.len())?;
    Ok(())
}

impl Asserted {
    pub(crate) fn new(alloc: Global) -> Asserted
        ensures { result ≡ [] }
    {
        Asserted {
            items: Vec::new(alloc),
            index: Vec::new(alloc),
        }
    }

    /// How many there are.
    pub(crate) fn len(&self) -> usize
        ensures { result ≡ length self.now }
    {
        self.items.len()
    }

    pub(crate) fn as_slice(&self) -> &[Place]
        ensures { result.now ≡ self.now }
    {
        self.items.as_slice()
    }

    /// Whether the place is asserted.
    pub(crate) fn has(&self, place: Place) -> bool
        ensures { IsTrue result ↔ Contains self.now place }
    {
        is_on(&self.items, &self.index, place)
    }

    /// Puts the place last.
    pub(crate) fn push(&mut self, place: Place) -> Result<(), Memory>
        requires { place.position < 2 ^ 63 }
        ensures { OnOk result (self.new ≡ self.old ++ place ∷ []) }
    {
        note(&self.items, &mut self.index, place)?;
        self.items.push(place)?;
        Ok(())
    }

    /// Keeps the first `count`.
    pub(crate) fn cut(&mut self, count: usize)
        ensures { self.new ≡ take count self.old }
    {
        self.items.truncate(count);
    }
}
