ghost use Rattle.std.specs.Prelude.{◌≡◌, IfOk};
ghost use Rattle.solver.specs.Branches.{IsBlank};

use super::asserted::Asserted;
use super::later::Later;
use crate::hints::Agenda;
use crate::tree::numbered_tree::NumberedTree;
use order_graph::OrderGraph;
use pc_common::Memory;
use refutation::Refutation;
use std::alloc::Global;

/// The first open branch of a search, with the sides that wait after it and the steps so far. What it keeps
/// is said of it and the tree together, by `IsOpen`: the graph's literals are those of the asserted
/// positions, each side that waits begins with a first part of them, and the steps with the open branches
/// are a partial refutation.
pub(crate) struct Branch {
    pub(crate) graph: OrderGraph,
    pub(crate) asserted: Asserted,
    pub(crate) agenda: Agenda,
    /// The next one last.
    pub(crate) later: Vec<Later>,
    pub(crate) refutation: Refutation,
}

// By hand: docs/DECISIONS.md, "Drops are written by hand".
impl Drop for Branch {
    fn drop(self) {
        let Branch {
            graph: _,
            asserted: _,
            agenda: _,
            later: _,
            refutation: _,
        } = self;
    }
}

impl Branch {
    /// That of a search over this tree, before the tree is asserted.
    pub(crate) fn new(alloc: Global, tree: &NumberedTree) -> Result<Branch, Memory>
        ensures { IfOk result (IsBlank tree.now) }
    {
        let count = tree.count();
        let graph = OrderGraph::new(alloc, count)?;
        let agenda = Agenda::new(alloc, tree.rows());
        let asserted = Asserted::new(alloc);
        let later = Vec::new(alloc);
        let refutation = Refutation::new(alloc);
        Ok(Branch {
            graph,
            asserted,
            agenda,
            later,
            refutation,
        })
    }

    /// The steps, with those that are not needed noted.
    pub(crate) fn into_refutation(self, alloc: Global) -> Refutation
        ensures { result ≡ self.refutation }
    {
        let Branch {
            graph: _,
            asserted: _,
            mut agenda,
            later: _,
            mut refutation,
        } = self;
        refutation.note_cuts(agenda.take_cuts(alloc));
        refutation
    }
}
