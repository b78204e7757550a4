ghost use Rattle.std.specs.Prelude.{◌≡◌, ◌^◌, ◌<◌, ◌≤◌, ◌++◌, [], ◌∷◌, Some, IfOk, length, slice_get, slice_index_or, is_ok};
ghost use Rattle.std.specs.Prelude.{if◌then◌else◌};
ghost use Rattle.std.specs.List.{list_any};
ghost use Rattle.pc_common.specs.Names.{same_name};

use super::name_set::NameSet;
use pc_common::Memory;
use std::alloc::Global;
use std::marker::Model;

/// Type names, each a list of bytes, in the order that a line gives them in. A line may give many
/// thousands, so that a name is looked up and not searched for. The names stand one after another in
/// one block, so that the list takes no block for each of them.
pub struct TypeNames {
    bytes: Vec<u8>,
    ends: Vec<usize>,
    known: NameSet,
}

// By hand: docs/DECISIONS.md, "Drops are written by hand".
impl Drop for TypeNames {
    fn drop(self) {
        let TypeNames {
            bytes: _,
            ends: _,
            known: _,
        } = self;
    }
}

impl Model for TypeNames {
    ghost use Rattle.std.specs.Prelude.{ℕ, List, length};
    ghost use Rattle.pc_case.specs.Cuts.{cuts, Rises};
    ghost use Rattle.pc_case.specs.NameSets.{AreNamesOf};

    ghost Value = { List (List ℕ) };

    ghost view = { λ t. cuts t.bytes.items 0 t.ends.items };

    ghost invariant = { λ t. Rises 0 t.ends.items (length t.bytes.items)
        × AreNamesOf t.known (cuts t.bytes.items 0 t.ends.items) };
}

impl TypeNames {
    /// No names. Takes no memory.
    pub fn new(alloc: Global) -> TypeNames
        ensures { result ≡ [] }
    {
        TypeNames {
            bytes: Vec::new(alloc),
            ends: Vec::new(alloc),
            known: NameSet::new(alloc),
        }
    }

    pub fn len(&self) -> usize
        ensures value { result ≡ length self.now }
        ensures bound { length self.now < 2 ^ 63 }
    {
        self.ends.len()
    }

    /// The name at `k`, from 0.
    pub fn get(&self, k: usize) -> &[u8]
        requires { k < length self.now }
        ensures { slice_get self.now k ≡ Some result.now }
    {
        &self.bytes[begin_of(self.ends.as_slice(), k)..self.ends[k]]
    }

    /// Whether this is one of the names: one look-up of a name of at most 15 bytes; of a longer one its
    /// length is looked up, and where names of that length are there, the name. Takes no memory.
    pub fn has(&self, name: &[u8]) -> bool
        ensures { result ≡ list_any (λ known. same_name known name.now) self.now }
    {
        self.known.has(name)
    }

    /// Puts `name` last, or changes nothing where memory is refused.
    pub fn push(&mut self, name: &[u8]) -> Result<(), Memory>
        ensures { self.new ≡ (if is_ok result then self.old ++ name.now ∷ [] else self.old) }
    {
        let alloc = *self.bytes.allocator();
        // The room comes first, so that the list takes each name that the set takes.
        self.bytes.reserve(name.len())?;
        self.ends.reserve(1)?;
        self.known.add(alloc, name)?;
        self.bytes.extend_from_slice(name)?;
        self.ends.push(self.bytes.len())?;
        Ok(())
    }

    /// The same names once more. The one error is that memory was refused.
    pub fn copy(&self, alloc: Global) -> Result<TypeNames, Memory>
        ensures { IfOk result (λ c. c ≡ self.now) }
    {
        let mut copies = TypeNames::new(alloc);
        for k in 0..self.len() {
            copies.push(self.get(k))?;
        }
        Ok(copies)
    }
}

/// Where the name at `k` begins: the first one at 0, another where the one before it ends.
fn begin_of(ends: &[usize], k: usize) -> usize
    requires { k ≤ length ends.now }
    ensures { result ≡ slice_index_or (0 ∷ ends.now) k 0 }
{
    if k == 0 { 0 } else { ends[k - 1] }
}
