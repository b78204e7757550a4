ghost use Rattle.std.specs.Prelude.{◌≡◌, ◌||◌, ◌&&◌, false, List, ℕ, Some, None, is_ok, length, nat_le, if◌then◌else◌};
ghost use Rattle.pc_common.specs.Names.{same_name};
ghost use Rattle.pc_case.specs.NameSets.{padded, has_name};

use super::long_names::LongNames;
use pc_common::Memory;
use std::alloc::Global;
use std::collections::HashMap;

/// A name of at most 15 bytes, as nearly all are: its bytes, zeros after them, and its length last.
type ShortName = [u8; 16];

/// The key of a name, or None where it has more than 15 bytes.
fn short_name(name: &[u8]) -> Option<ShortName>
    ensures { result ≡ (if nat_le (length name.now) 15 then Some (padded name.now) else None) }
{
    let length = name.len();
    if length > 15 {
        return None;
    }
    let mut key = [0; 16];
    key[..length].copy_from_slice(name);
    key[15] = length as u8;
    Some(key)
}

/// Names. A short one lies in the set itself, so that it takes no block of memory of its own.
pub(crate) struct NameSet {
    // A map without values, as in `LongNames`.
    short: HashMap<ShortName, ()>,
    long: LongNames,
}

// By hand: docs/DECISIONS.md, "Drops are written by hand".
impl Drop for NameSet {
    fn drop(self) {
        let NameSet { short: _, long: _ } = self;
    }
}

impl NameSet {
    /// No names. Takes no memory.
    pub(crate) fn new(alloc: Global) -> NameSet
        ensures { (name : List ℕ) → has_name result name ≡ false }
    {
        NameSet {
            short: HashMap::new(alloc),
            long: LongNames::new(alloc),
        }
    }

    /// Adds a name, or changes nothing where memory is refused.
    pub(crate) fn add(&mut self, alloc: Global, name: &[u8]) -> Result<(), Memory>
        ensures { (other : List ℕ) → has_name self.new other
            ≡ (has_name self.old other || (is_ok result && same_name name.now other)) }
    {
        match short_name(name) {
            Some(key) => {
                self.short.insert(key, ())?;
                Ok(())
            }
            None => self.long.add(alloc, name),
        }
    }

    /// Whether this is one of the names: one look-up of a short one; of another one its length is looked up,
    /// and where names of that length are there, the name. Takes no memory.
    pub(crate) fn has(&self, name: &[u8]) -> bool
        ensures { result ≡ has_name self.now name.now }
    {
        match short_name(name) {
            Some(key) => self.short.contains_key(&key),
            None => self.long.has(name),
        }
    }
}
