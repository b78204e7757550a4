ghost use Rattle.std.specs.Prelude.{◌≡◌, ◌^◌, ◌<◌, ◌++◌, [], ◌∷◌, List, length, vec_len, slice_get, is_ok, if◌then◌else◌};

use super::memory::Memory;
use std::alloc::Global;
use std::marker::Model;

/// A list that grows at its end and that contracts see as a plain list.
///
/// It keeps the allocator that it was made with. It is the list that contracts compare: a plain `Vec`
/// as a field would bring its capacity and address in.
#[derive(Drop)]
pub struct Listed<T> {
    items: Vec<T>,
}

impl<T> Model for Listed<T> {
    ghost Value = { List T };

    ghost view = { λ s. s.items.items };

    ghost invariant = { λ s. length s.items.items < 2 ^ 63 };
}

impl<T> Listed<T> {
    /// The empty list. Takes no memory.
    pub fn new(alloc: Global) -> Self
        ensures { result ≡ [] }
    {
        Listed {
            items: Vec::new(alloc),
        }
    }

    /// The list of a vector's items. Takes no memory.
    pub fn from_vec(items: Vec<T>) -> Self
        requires { vec_len items < 2 ^ 63 }
        ensures { result ≡ items.items }
    {
        Listed { items }
    }

    /// The items as a vector. Takes no memory.
    pub fn into_vec(self) -> Vec<T>
        ensures items { result.items ≡ self }
        ensures bound { vec_len result < 2 ^ 63 }
    {
        self.items
    }

    pub fn len(&self) -> usize
        ensures value { result ≡ length self.now }
        ensures bound { length self.now < 2 ^ 63 }
    {
        self.items.len()
    }

    /// The item at `k`, from 0.
    pub fn get(&self, k: usize) -> &T
        requires { k < length self.now }
        ensures { slice_get self.now k ≡ Some result.now }
    {
        &self.items[k]
    }

    pub fn as_slice(&self) -> &[T]
        ensures value { result.now ≡ self.now }
        ensures bound { length self.now < 2 ^ 63 }
    {
        self.items.as_slice()
    }

    /// Puts `x` last, or changes nothing where memory is refused.
    pub fn push(&mut self, x: T) -> Result<(), Memory>
    where
        T: Drop,
        ensures { self.new ≡ (if is_ok result then self.old ++ x ∷ [] else self.old) }
    {
        self.items.push(x)?;
        Ok(())
    }
}
