ghost use Rattle.std.specs.Prelude.{◌≡◌, IfOk};
ghost use Rattle.pc_syntax.specs.Closed.{closed_node, closed_nodes, closed_edges};
ghost use Rattle.pc_syntax.specs.IsClosed.{FitsNode, FitNodes, FitEdges};
ghost use Rattle.pc_ground.specs.Keys.{literal_node};
ghost use Rattle.pc_ground.specs.PlainGround.{plain_ground, ground_literal};
ghost use Rattle.pc_ground.specs.Unfolded.{edge_said};
ghost use Rattle.static_preds.specs.Slots.{AreInRange};
ghost use Rattle.static_preds.specs.Values.{meanings, scope_of};
ghost use Rattle.grounder.specs.GroundingOf.{grounding_of};

use pc_case::Case;
use pc_common::Memory;
use pc_ground::{Ground, Literal, NodeKey};
use pc_syntax::{ClosedEdge, ClosedEdges, ClosedNodes, Env};
use static_preds::node_key;
use std::alloc::Global;

/// And over nodes, built from the last one.
pub(crate) fn ground_nodes(
    alloc: Global,
    case: &Case,
    env: &Env,
    nodes: &ClosedNodes,
) -> Result<Ground, Memory>
    requires fit { FitNodes (scope_of env.now.items) nodes.now }
    requires range { AreInRange case.now env.now.items }
    ensures { IfOk result (λ g. plain_ground g ≡ grounding_of case.now env.now.items (closed_nodes nodes.now)) }
{
    let mut whole = Ground::True;
    for k in 0..nodes.len() {
        let node = node_key(case, env, nodes.get(nodes.len() - 1 - k));
        whole = Ground::conjunction(alloc, Ground::Lit(Literal::Node(node)), whole)?;
    }
    Ok(whole)
}

/// And over edges, built from the last one.
pub(crate) fn ground_edges(
    alloc: Global,
    case: &Case,
    env: &Env,
    edges: &ClosedEdges,
) -> Result<Ground, Memory>
    requires fit { FitEdges (scope_of env.now.items) edges.now }
    requires range { AreInRange case.now env.now.items }
    ensures { IfOk result (λ g. plain_ground g ≡ grounding_of case.now env.now.items (closed_edges edges.now)) }
{
    let mut whole = Ground::True;
    for k in 0..edges.len() {
        let edge = edge_literal(case, env, edges.get(edges.len() - 1 - k));
        whole = Ground::conjunction(alloc, Ground::Lit(edge), whole)?;
    }
    Ok(whole)
}

/// The literal of an edge.
fn edge_literal(case: &Case, env: &Env, edge: &ClosedEdge) -> Literal<NodeKey>
    requires from { FitsNode (scope_of env.now.items) edge.now.from }
    requires to { FitsNode (scope_of env.now.items) edge.now.to }
    requires range { AreInRange case.now env.now.items }
    ensures { ground_literal (literal_node result)
        ≡ edge_said (closed_node case.now (meanings env.now.items) edge.now.from)
        (closed_node case.now (meanings env.now.items) edge.now.to) }
{
    Literal::Edge(
        node_key(case, env, &edge.from),
        node_key(case, env, &edge.to),
    )
}
