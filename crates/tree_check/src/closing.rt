ghost use Rattle.std.specs.Prelude.{◌≡◌, ◌↔◌, IsTrue, map};
ghost use Rattle.pc_common.specs.World.{Node};
ghost use Rattle.pc_common.specs.Chain.{Leads};
ghost use Rattle.pc_ground.specs.Keys.{key_node};
ghost use Rattle.pc_ground.specs.Tree.{Tree};
ghost use Rattle.pc_ground.specs.Rows.{rows_of};
ghost use Rattle.pc_ground.specs.Refutes.{Branch, Closes, literals_of};
ghost use Rattle.tree_check.specs.Facts.{HasEdge, HasFacts};
ghost use Rattle.refutation.specs.Steps.{plain_leaf};
ghost use Rattle.tree_check.specs.Leaves.{IsCycle, IsPath, IsAbsent};

use super::facts::Facts;
use super::root::is_false;
use pc_ground::{Flat, NodeKey};
use refutation::{BranchFact, Leaf};

/// Whether edges lead from a node over the listed ones to another. A look-up for each edge.
fn are_joined(facts: &Facts, from: NodeKey, via: &[NodeKey], to: NodeKey) -> bool
    ensures { IsTrue result ↔ Leads (HasEdge facts.now) (key_node from) (map key_node via.now) (key_node to) }
{
    let mut at = from;
    for next in via {
        if !facts.has(BranchFact::Edge(at, *next)) {
            return false;
        }
        at = *next;
    }
    facts.has(BranchFact::Edge(at, to))
}

/// Whether each node has an edge to the next one, and the last to the first.
fn is_cycle(facts: &Facts, nodes: &[NodeKey]) -> bool
    ensures { IsTrue result ↔ IsCycle facts.now (map key_node nodes.now) }
{
    match nodes {
        [] => false,
        [first, via @ ..] => are_joined(facts, *first, via, *first),
    }
}

/// Whether each node has an edge to the next one, and the pair of the first and the last is denied.
fn is_path(facts: &Facts, nodes: &[NodeKey]) -> bool
    ensures { IsTrue result ↔ IsPath facts.now (map key_node nodes.now) }
{
    match nodes {
        [first, via @ .., last] => {
            facts.has(BranchFact::NoEdge(*first, *last)) && are_joined(facts, *first, via, *last)
        }
        _ => false,
    }
}

/// Whether the node is denied and present.
fn is_absent(facts: &Facts, node: NodeKey) -> bool
    ensures { IsTrue result ↔ IsAbsent facts.now (key_node node) }
{
    facts.has(BranchFact::NoNode(node)) && facts.has(BranchFact::Present(node))
}

/// Whether the leaf closes the branch of these facts. A look-up for each node or edge; takes no memory.
pub(crate) fn closes(tree: &Flat, facts: &Facts, leaf: Leaf<'_>) -> bool
    ensures { (t : Tree Node) (ps : Branch) → tree.now ≡ rows_of t → HasFacts t facts.now ps
        → IsTrue result ↔ Closes t (literals_of t ps) (plain_leaf leaf.entry) }
{
    match leaf {
        Leaf::Cycle(nodes) => is_cycle(facts, nodes),
        Leaf::Path(nodes) => is_path(facts, nodes),
        Leaf::Absent(node) => is_absent(facts, node),
        Leaf::False => is_false(tree),
    }
}
