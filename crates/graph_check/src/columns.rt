ghost use Rattle.std.specs.Prelude.{◌≡◌, ◌<◌, ◌↔◌, true, length, IfOk};
ghost use Rattle.pc_common.specs.Chain.{Chain};
ghost use Rattle.graph_check.specs.Arcs.{Joins};
ghost use Rattle.graph_check.specs.Searches.{IsTopological};
ghost use Rattle.graph_check.specs.Columns.{IsColumn, AreColumns};

use super::adjacency::Adjacency;
use pc_common::Memory;
use std::alloc::Global;

/// Which nodes lead to a node, for each node that was asked for.
pub(crate) struct Columns {
    /// Of each node, its column, counted from 1; 0 where it has none.
    slots: Vec<usize>,
    columns: Vec<Vec<bool>>,
}

// By hand: docs/DECISIONS.md, "Drops are written by hand".
impl Drop for Columns {
    fn drop(self) {
        let Columns {
            slots: _,
            columns: _,
        } = self;
    }
}

/// Which nodes lead to `b`, worked out in a topological order: a walk over all nodes and edges.
fn column_of(
    alloc: Global,
    adjacency: &Adjacency,
    order: &[usize],
    b: usize,
) -> Result<Vec<bool>, Memory>
    requires order { IsTopological adjacency.now order.now }
    ensures { IfOk result (λ column. IsColumn adjacency.now b column.items) }
{
    let mut column = vec![in alloc; false; adjacency.nodes()]?;
    for a in order {
        if adjacency.leads(*a, b, &column) {
            column[*a] = true;
        }
    }
    Ok(column)
}

impl Columns {
    /// No columns. Takes memory for a number of each node.
    pub(crate) fn new(alloc: Global, adjacency: &Adjacency) -> Result<Columns, Memory>
        ensures { IfOk result (λ columns. AreColumns adjacency.now columns) }
    {
        Ok(Columns {
            slots: vec![in alloc; 0; adjacency.nodes()]?,
            columns: Vec::new(alloc),
        })
    }

    /// Whether a chain of edges leads from `a` to `b`. One look-up where the column of `b` is there; else a walk
    /// over the edges from `a`, and, where none leads to `b`, the column of `b` is worked out and kept.
    pub(crate) fn leads(
        &mut self,
        alloc: Global,
        adjacency: &Adjacency,
        order: &[usize],
        a: usize,
        b: usize,
    ) -> Result<bool, Memory>
        requires columns { AreColumns adjacency.now self.old }
        requires order { IsTopological adjacency.now order.now }
        requires a_in { a < length adjacency.now.heads }
        requires b_in { b < length adjacency.now.heads }
        ensures leads { IfOk result (λ yes. (yes ≡ true) ↔ Chain (Joins adjacency.now) a b) }
        ensures columns { AreColumns adjacency.now self.new }
    {
        let slot = self.slots[b];
        if slot > 0 {
            return Ok(self.columns[slot - 1][a]);
        }
        if adjacency.joins(a, b) {
            return Ok(true);
        }
        let column = column_of(alloc, adjacency, order, b)?;
        let leads = column[a];
        self.columns.push(column)?;
        self.slots[b] = self.columns.len();
        Ok(leads)
    }
}
