ghost use Rattle.std.specs.Prelude.{◌≡◌, ◌++◌, [], ◌∷◌, map, All, IfOk, OnOk};
ghost use Rattle.std.specs.List.{list_any};
ghost use Rattle.macro_expand.specs.Numbered.{is_long};
ghost use Rattle.macro_expand.specs.Numbers.{name_bytes, IsAmong};

use indexmap::IndexSet;
use pc_common::Memory;
use pc_syntax::Name;
use std::alloc::Global;
use std::marker::Model;

/// A name of more bytes is long. To look one of so many up costs less than to number it first.
const SHORT_ENOUGH: usize = 32;

/// Names in their order, each as often as it is listed.
pub(crate) struct ListedNames<'a> {
    names: Vec<&'a [u8]>,
}

// By hand: docs/DECISIONS.md, "Drops are written by hand".
impl Drop for ListedNames<'_> {
    fn drop(self) {
        let ListedNames { names: _ } = self;
    }
}

impl<'a> Model for ListedNames<'a> {
    ghost use Rattle.std.specs.Prelude.{List, map, ℕ};
    ghost use Rattle.macro_expand.specs.Numbers.{name_bytes};

    ghost Value = { List (List ℕ) };

    ghost view = { λ s. map name_bytes s.names.items };
}

impl<'a> ListedNames<'a> {
    pub(crate) fn new(alloc: Global) -> ListedNames<'a>
        ensures { result ≡ [] }
    {
        ListedNames {
            names: Vec::new(alloc),
        }
    }

    /// Lists a name last.
    pub(crate) fn list(&mut self, name: &'a Name) -> Result<(), Memory>
        ensures { OnOk result (self.new ≡ self.old ++ name.now ∷ []) }
    {
        self.names.push(name.as_slice())?;
        Ok(())
    }

    /// Whether one of the names is long.
    pub(crate) fn has_long(&self) -> bool
        ensures { result ≡ list_any is_long self.now }
    {
        for name in self.names.as_slice() {
            if name.len() > SHORT_ENOUGH {
                return true;
            }
        }
        false
    }

    /// The names in their order, each once. Takes time in proportion to their bytes.
    pub(crate) fn distinct_names(&self, alloc: Global) -> Result<IndexSet<&'a [u8]>, Memory>
        ensures { IfOk result (λ once. All (IsAmong (map name_bytes once.keys)) self.now) }
    {
        let mut once = IndexSet::new(alloc);
        for name in self.names.as_slice() {
            once.insert(*name)?;
        }
        Ok(once)
    }
}
