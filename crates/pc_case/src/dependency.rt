ghost use Rattle.std.specs.Prelude.{◌≡◌, ◌||◌, false, List, IfOk, OnOk, ℕ, map, take};
ghost use Rattle.pc_case.specs.Plain.{dependency};
ghost use Rattle.pc_common.specs.Dependencies.{depends_by};
ghost use Rattle.pc_case.specs.Tables.{has_kind, goes_between};

use super::name_set::NameSet;
use pc_common::{Listed, Memory};
use std::alloc::Global;
use std::collections::HashMap;
use std::marker::Model;

/// A dependency of a kind, between two micro-ops by their places in test order.
pub struct Dependency {
    pub kind: Listed<u8>,
    pub source: u8,
    pub target: u8,
}

// By hand: docs/DECISIONS.md, "Drops are written by hand".
impl Drop for Dependency {
    fn drop(self) {
        let Dependency {
            kind: _,
            source: _,
            target: _,
        } = self;
    }
}

impl Dependency {
    /// The same dependency once more. The one error is that memory was refused.
    pub fn copy(&self, alloc: Global) -> Result<Dependency, Memory>
        ensures { IfOk result (λ c. c ≡ self.now) }
    {
        let kind = Vec::from_slice(alloc, self.kind.as_slice())?;
        Ok(Dependency {
            kind: Listed::from_vec(kind),
            source: self.source,
            target: self.target,
        })
    }
}

/// Dependencies in test order. One may be repeated.
pub type Dependencies = Listed<Dependency>;

/// The two places that a dependency goes between.
#[derive(Clone, Copy, PartialEq, Eq, Hash)]
pub(crate) struct Ends {
    source: usize,
    target: usize,
}

/// The kinds of the dependencies between two places. A test may have many thousands of kinds, and a
/// kind as many bytes, so that the ends are looked up first and the kind last.
type KindsByEnds = HashMap<Ends, NameSet>;

/// Dependencies in test order, looked up by ends and then by kind.
pub(crate) struct DependencyTable {
    listed: Dependencies,
    kinds: KindsByEnds,
}

// By hand: docs/DECISIONS.md, "Drops are written by hand".
impl Drop for DependencyTable {
    fn drop(self) {
        let DependencyTable {
            listed: _,
            kinds: _,
        } = self;
    }
}

impl Model for DependencyTable {
    ghost use Rattle.std.specs.Prelude.{List, map};
    ghost use Rattle.pc_common.specs.Case.{Dependency as PlainDependency};
    ghost use Rattle.pc_case.specs.Plain.{dependency};
    ghost use Rattle.pc_case.specs.Tables.{IsTableOf};

    ghost Value = { List PlainDependency };

    ghost view = { λ t. map dependency t.listed };

    ghost invariant = { λ t. IsTableOf t.kinds.entries (map dependency t.listed) };
}

/// Adds a dependency of this kind.
fn add(alloc: Global, table: &mut KindsByEnds, kind: &[u8], ends: Ends) -> Result<(), Memory>
    ensures { OnOk result ((k : List ℕ) (i j : ℕ) → has_kind table.new.entries k i j
        ≡ (has_kind table.old.entries k i j || goes_between kind.now ends k i j)) }
{
    match table.get_mut(&ends) {
        Some(kinds) => {
            kinds.add(alloc, kind)?;
        }
        None => {
            let mut kinds = NameSet::new(alloc);
            kinds.add(alloc, kind)?;
            table.insert(ends, kinds)?;
        }
    }
    Ok(())
}

fn copy_listed(alloc: Global, listed: &Dependencies) -> Result<Dependencies, Memory>
    ensures { IfOk result (λ c. c ≡ listed.now) }
{
    let mut copies = Listed::new(alloc);
    for dependency in listed.as_slice() {
        copies.push(dependency.copy(alloc)?)?;
    }
    Ok(copies)
}

impl DependencyTable {
    /// The table of these dependencies.
    pub(crate) fn from_list(alloc: Global, listed: Dependencies) -> Result<DependencyTable, Memory>
        ensures { IfOk result (λ t. t ≡ map dependency listed) }
    {
        let mut kinds = HashMap::new(alloc);
        for line in listed.as_slice() {
            let ends = Ends {
                source: line.source as usize,
                target: line.target as usize,
            };
            add(alloc, &mut kinds, line.kind.as_slice(), ends)?;
        }
        Ok(DependencyTable { listed, kinds })
    }

    /// Whether a dependency of this kind goes from place `i` to place `j`. Takes no memory.
    pub(crate) fn has(&self, kind: &[u8], i: usize, j: usize) -> bool
        ensures { result ≡ depends_by self.now kind.now i j }
    {
        let ends = Ends {
            source: i,
            target: j,
        };
        match self.kinds.get(&ends) {
            None => false,
            Some(kinds) => kinds.has(kind),
        }
    }

    /// The same table once more.
    pub(crate) fn copy(&self, alloc: Global) -> Result<DependencyTable, Memory>
        ensures { IfOk result (λ c. c ≡ self.now) }
    {
        DependencyTable::from_list(alloc, copy_listed(alloc, &self.listed)?)
    }
}
