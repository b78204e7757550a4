ghost use Rattle.std.specs.Prelude.{◌≡◌, ◌<◌, ◌^◌, Some, IfSome, slice_get};
ghost use Rattle.std.specs.Option.{option_map};
ghost use Rattle.pc_syntax.specs.Closed.{closed_node};
ghost use Rattle.pc_syntax.specs.IsClosed.{FitNodes, FitEdges};
ghost use Rattle.static_preds.specs.Slots.{AreInRange};
ghost use Rattle.static_preds.specs.Values.{meanings, scope_of};
ghost use Rattle.lifted_facts.specs.PlainFacts.{plain_fact, one_node, one_edge, IsProper};

use super::fact::{Fact, Said};
use pc_case::Case;
use pc_syntax::{ClosedEdges, ClosedNodes};
use static_preds::node_key;

/// The node at this place of a list, from 0, under the sign of the list; None where the list has no such place.
pub(crate) fn node_member<'a>(
    case: &Case,
    said: &Said<'a>,
    nodes: &ClosedNodes,
    place: u64,
) -> Option<Fact<'a>>
    requires fit { FitNodes (scope_of said.now.env.items) nodes.now }
    requires range { AreInRange case.now said.now.env.items }
    ensures is { option_map plain_fact result
        ≡ option_map (λ t. one_node said.now.plus (closed_node case.now (meanings said.now.env.items) t))
        (slice_get nodes.now place) }
    ensures proper { IfSome result (IsProper case.now) }
    ensures small { IfSome result (λ f. place < 2 ^ 63) }
{
    if place >= nodes.len() as u64 {
        return None;
    }
    Some(Fact::Node {
        plus: said.plus,
        node: node_key(case, &said.env, nodes.get(place as usize)),
    })
}

/// The edge at this place of a list, from 0, under the sign of the list; None where the list has no such place.
pub(crate) fn edge_member<'a>(
    case: &Case,
    said: &Said<'a>,
    edges: &ClosedEdges,
    place: u64,
) -> Option<Fact<'a>>
    requires fit { FitEdges (scope_of said.now.env.items) edges.now }
    requires range { AreInRange case.now said.now.env.items }
    ensures is { option_map plain_fact result
        ≡ option_map (λ t. one_edge said.now.plus (closed_node case.now (meanings said.now.env.items) t.from)
        (closed_node case.now (meanings said.now.env.items) t.to)) (slice_get edges.now place) }
    ensures proper { IfSome result (IsProper case.now) }
    ensures small { IfSome result (λ f. place < 2 ^ 63) }
{
    if place >= edges.len() as u64 {
        return None;
    }
    let edge = edges.get(place as usize);
    Some(Fact::Edge {
        plus: said.plus,
        from: node_key(case, &said.env, &edge.from),
        to: node_key(case, &said.env, &edge.to),
    })
}
