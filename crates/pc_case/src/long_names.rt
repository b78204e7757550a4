ghost use Rattle.std.specs.Prelude.{◌≡◌, ◌||◌, ◌&&◌, false, List, ℕ, is_ok};
ghost use Rattle.pc_common.specs.Names.{same_name};
ghost use Rattle.pc_case.specs.NameSets.{is_known, has_long};

use pc_common::Memory;
use std::alloc::Global;
use std::collections::HashMap;

/// Names, looked up by their length and only then by their bytes. A name may have many thousands of
/// bytes, so that it costs its length where it is put in, and where a name of its length is asked for.
pub(crate) struct LongNames {
    // Sets are maps without values here, so that the libraries above carry what is said of maps alone.
    by_length: HashMap<usize, HashMap<Vec<u8>, ()>>,
}

// By hand: docs/DECISIONS.md, "Drops are written by hand".
impl Drop for LongNames {
    fn drop(self) {
        let LongNames { by_length: _ } = self;
    }
}

impl LongNames {
    /// No names. Takes no memory.
    pub(crate) fn new(alloc: Global) -> LongNames
        ensures { (name : List ℕ) → has_long result name ≡ false }
    {
        LongNames {
            by_length: HashMap::new(alloc),
        }
    }

    /// Adds a name, or changes nothing where memory is refused.
    pub(crate) fn add(&mut self, alloc: Global, name: &[u8]) -> Result<(), Memory>
        ensures { (other : List ℕ) → has_long self.new other
            ≡ (has_long self.old other || (is_ok result && same_name name.now other)) }
    {
        let length = name.len();
        let name = Vec::from_slice(alloc, name)?;
        match self.by_length.get_mut(&length) {
            Some(known) => {
                known.insert(name, ())?;
            }
            None => {
                let mut known = HashMap::new(alloc);
                known.insert(name, ())?;
                self.by_length.insert(length, known)?;
            }
        }
        Ok(())
    }

    /// Whether this is one of the names: one look-up of a number, and where names of its length are
    /// there, one of the name. Takes no memory.
    pub(crate) fn has(&self, name: &[u8]) -> bool
        ensures { result ≡ has_long self.now name.now }
    {
        match self.by_length.get(&name.len()) {
            None => false,
            Some(known) => is_among(known, name),
        }
    }
}

/// Whether this is one of the names. A single one is compared, since that costs less than a hash.
fn is_among(known: &HashMap<Vec<u8>, ()>, name: &[u8]) -> bool
    ensures { result ≡ is_known known.now name.now }
{
    let mut keys = known.keys();
    match (keys.next(), keys.next()) {
        (Some(only), None) => name == only.as_slice(),
        _ => known.contains_key(name),
    }
}
