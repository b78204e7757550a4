ghost use Rattle.std.specs.Prelude.{◌≡◌, ◌↔◌, true, IfOk};
ghost use Rattle.pc_ground.specs.Stages.{plain_axioms};
ghost use Rattle.graph_check.specs.Shown.{IsShown, IsShownOf};

use super::order::Order;
use super::truth::are_true;
use graph_text::Graph;
use pc_case::Case;
use pc_common::Memory;
use pc_ground::{Axioms, Front};
use std::alloc::Global;

/// Whether the graph shows that these axioms can be true together in this test: its edges join its nodes and
/// have no cycle, and each axiom is true where just its nodes are there, in the order of the chains of its
/// edges. A node or an edge may stand there more than once.
///
/// It takes time and memory in proportion to nodes and edges, and to the axioms' atoms. Where an atom asks for
/// two nodes that no listed edge joins, what leads to the second one is worked out, once for each such node: a
/// walk over all nodes and edges, and a byte for each node. The walk over an axiom nests a call for each
/// connective, quantifier and binding above an atom, which in a model without faults are at most 512. The one
/// error is that memory was refused.
pub fn check_graph_of(
    alloc: Global,
    case: &Case,
    axioms: &Axioms,
    graph: &Graph,
) -> Result<bool, Memory>
    ensures { IfOk result (λ yes. (yes ≡ true) ↔ IsShownOf case.now (plain_axioms axioms.now) graph.now) }
{
    match Order::generate(alloc, graph)? {
        Some(mut order) => are_true(case, &mut order, axioms.as_slice()),
        None => Ok(false),
    }
}

/// Whether the graph shows that the front's axioms can be true together: `check_graph_of` over its test and its
/// axioms. It reads neither the ground tree nor the node numbers.
pub fn check_graph(alloc: Global, front: &Front, graph: &Graph) -> Result<bool, Memory>
    ensures { IfOk result (λ yes. (yes ≡ true) ↔ IsShown front.now graph.now) }
{
    check_graph_of(alloc, &front.case, &front.axioms, graph)
}
