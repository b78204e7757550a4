ghost use Rattle.std.specs.Prelude.{◌≡◌, ◌^◌, ◌<◌, ◌++◌, [], ◌∷◌, length, slice_get, Some, IfOk, is_ok, if◌then◌else◌};

use super::listed::Listed;
use super::memory::Memory;
use std::alloc::{AllocError, Global};
use std::marker::Model;
use std::rc::RcSlice;

/// A list that contracts see as a plain list, and whose copies are kept once.
///
/// Each copy counts as one more owner of the items, which go with the last of them.
pub struct Shared<T> {
    alloc: Global,
    // None: the list is empty.
    items: Option<RcSlice<T>>,
}

// By hand: docs/DECISIONS.md, "Drops are written by hand".
impl<T: Drop> Drop for Shared<T> {
    fn drop(self) {
        let Shared { alloc: _, items: _ } = self;
    }
}

impl<T> Model for Shared<T> {
    ghost use Rattle.std.specs.Prelude.{◌^◌, ◌<◌, List, length};
    ghost use Rattle.pc_common.specs.Shared.{owned_items};

    ghost Value = { List T };

    ghost view = { λ s. owned_items s.items };

    ghost invariant = { λ s. length (owned_items s.items) < 2 ^ 63 };
}

impl<T> Shared<T> {
    /// The empty list. Takes no memory.
    pub fn new(alloc: Global) -> Shared<T>
        ensures { result ≡ [] }
    {
        Shared { alloc, items: None }
    }

    /// The items of a list, which are moved and not copied.
    pub fn from_listed(items: Listed<T>) -> Result<Shared<T>, Memory>
    where
        T: Drop,
        ensures { IfOk result (λ shared. shared ≡ items) }
    {
        let items = items.into_vec();
        let alloc = *items.allocator();
        Ok(Shared {
            alloc,
            items: Some(RcSlice::from_vec(items)?),
        })
    }

    /// The same list once more. Takes no memory: an `Err` says that it has 2^64 - 1 owners already.
    pub fn share(&self) -> Result<Shared<T>, Memory>
    where
        T: Drop,
        ensures { IfOk result (λ shared. shared ≡ self.now) }
    {
        let items = match &self.items {
            None => None,
            Some(items) => Some(items.clone()?),
        };
        Ok(Shared {
            alloc: self.alloc,
            items,
        })
    }

    pub fn len(&self) -> usize
        ensures value { result ≡ length self.now }
        ensures bound { length self.now < 2 ^ 63 }
    {
        self.as_slice().len()
    }

    /// The item at `k`, from 0.
    pub fn get(&self, k: usize) -> &T
        requires { k < length self.now }
        ensures { slice_get self.now k ≡ Some result.now }
    {
        &self.as_slice()[k]
    }

    pub fn as_slice(&self) -> &[T]
        ensures value { result.now ≡ self.now }
        ensures bound { length self.now < 2 ^ 63 }
    {
        match &self.items {
            None => &[],
            Some(items) => items.as_slice(),
        }
    }

    /// Puts `x` last, or changes nothing where memory is refused. The items are copied, since other owners
    /// keep the list as it was: a list that is made item by item is made as a [`Listed`] first.
    pub fn push(&mut self, x: T) -> Result<(), Memory>
    where
        T: Clone + Drop,
        requires { (a b : T) → T.is_clone a b → a ≡ b }
        ensures { self.new ≡ (if is_ok result then self.old ++ x ∷ [] else self.old) }
    {
        let mut copies = Listed::from_vec(self.as_slice().to_vec(self.alloc)?);
        copies.push(x)?;
        *self = Shared::from_listed(copies)?;
        Ok(())
    }
}

impl<T: Drop> Clone for Shared<T> {
    ghost is_clone = { λ a b. b ≡ a };

    fn clone(&self) -> Result<Shared<T>, AllocError> {
        match self.share() {
            Ok(copy) => Ok(copy),
            Err(Memory) => Err(AllocError),
        }
    }
}
