ghost use Rattle.std.specs.Prelude.{◌<◌};
ghost use Rattle.order_graph.specs.Ways.{IsBelow};

use order_graph::OrderGraph;
use pc_ground::Literal;

/// Whether `a` is `b`, or reaches it by a chain.
fn comes_to(graph: &OrderGraph, a: u32, b: u32) -> bool
    requires a_in { a < graph.now.nodes }
    requires b_in { b < graph.now.nodes }
{
    a == b || graph.reaches(a, b)
}

/// Whether an edge from `c` to `d` would give a chain from `a` to `b`, which is denied.
fn is_joined(graph: &OrderGraph, a: u32, b: u32, c: u32, d: u32) -> bool
    requires a_in { a < graph.now.nodes }
    requires b_in { b < graph.now.nodes }
    requires c_in { c < graph.now.nodes }
    requires d_in { d < graph.now.nodes }
{
    comes_to(graph, a, c) && comes_to(graph, d, b)
}

/// Whether an edge from `a` to `b` and one from `c` to `d` clash, though neither clashes by itself. Where a chain leads
/// from one to the other, both together are as one edge from the first node to the last.
fn edges_clash(graph: &OrderGraph, a: u32, b: u32, c: u32, d: u32) -> bool
    requires a_in { a < graph.now.nodes }
    requires b_in { b < graph.now.nodes }
    requires c_in { c < graph.now.nodes }
    requires d_in { d < graph.now.nodes }
{
    if comes_to(graph, b, c) && graph.would_clash(Literal::Edge(a, d)) {
        return true;
    }
    comes_to(graph, d, a) && graph.would_clash(Literal::Edge(c, b))
}

/// Whether two literals clash together with the graph's, though neither clashes by itself.
pub(crate) fn pair_clashes(graph: &OrderGraph, first: Literal<u32>, second: Literal<u32>) -> bool
    requires first_in { IsBelow graph.now.nodes first }
    requires second_in { IsBelow graph.now.nodes second }
{
    match (first, second) {
        (Literal::NoEdge(a, b), Literal::Edge(c, d)) => is_joined(graph, a, b, c, d),
        (Literal::Edge(c, d), Literal::NoEdge(a, b)) => is_joined(graph, a, b, c, d),
        (Literal::Edge(a, b), Literal::Edge(c, d)) => edges_clash(graph, a, b, c, d),
        (Literal::NoNode(a), Literal::Node(b)) => a == b,
        (Literal::Node(a), Literal::NoNode(b)) => a == b,
        (Literal::NoNode(a), Literal::Edge(b, c)) => a == b || a == c,
        (Literal::Edge(b, c), Literal::NoNode(a)) => a == b || a == c,
        _ => false,
    }
}
