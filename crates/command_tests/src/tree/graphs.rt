//! Graphs, read from their lines.
use super::fronts::front_of;
use super::nodes::{OPS, STAGES};
use super::texts::put;
use super::trees::{show_edge, show_node};
use graph_text::{Graph, GraphFault, read_graph};
use pc_common::Memory;
use pc_ground::{Front, NodeText};
use std::alloc::Global;
use std::process::Abort;
use std::test::Fail;

/// A text, and its graph as `show_graph` writes it, or why it has none.
const TEXTS: &[(&'static str, Result<&'static str, GraphFault>)] = &[
    ("", Ok("|")),
    ("node 7.0@1:S\n", Ok("0@1:5 |")),
    (
        "node 10.3@0:T_1'\nnode 7.0@1:S\nnode 7.0@1:T_1'\nedge 7.0@1:S 7.0@1:T_1'\nedge 10.3@0:T_1' 7.0@1:S\n",
        Ok("1@0:63 0@1:5 0@1:63 | 0@1:5>0@1:63 1@0:63>0@1:5"),
    ),
    // the same lines in another order
    (
        "node 7.0@1:T_1'\nnode 7.0@1:S\nnode 10.3@0:T_1'\nedge 10.3@0:T_1' 7.0@1:S\nedge 7.0@1:S 7.0@1:T_1'\n",
        Ok("0@1:63 0@1:5 1@0:63 | 1@0:63>0@1:5 0@1:5>0@1:63"),
    ),
    // lines that come again
    (
        "node 7.0@1:S\nnode 10.3@0:S\nnode 7.0@1:S\nedge 7.0@1:S 10.3@0:S\nedge 7.0@1:S 10.3@0:S\n",
        Ok("0@1:5 1@0:5 0@1:5 | 0@1:5>1@0:5 0@1:5>1@0:5"),
    ),
    // a chain that comes back
    (
        "node 7.0@1:S\nnode 10.3@0:S\nedge 7.0@1:S 10.3@0:S\nedge 10.3@0:S 7.0@1:S\nedge 7.0@1:S 7.0@1:S\n",
        Ok("0@1:5 1@0:5 | 0@1:5>1@0:5 1@0:5>0@1:5 0@1:5>0@1:5"),
    ),
    ("\n", Err(GraphFault::Line(1))),
    ("node\n", Err(GraphFault::Line(1))),
    ("node 7.0@1:S\n\n", Err(GraphFault::Line(2))),
    ("node 7.0@1:S\nend\n", Err(GraphFault::Line(2))),
    ("nodes 7.0@1:S\n", Err(GraphFault::Line(1))),
    ("node  7.0@1:S\n", Err(GraphFault::Line(1))),
    ("node 7.0@1:S \n", Err(GraphFault::Line(1))),
    ("node 7.0@1:S 10.3@0:S\n", Err(GraphFault::Line(1))),
    ("node 7.0@1:S\r\n", Err(GraphFault::Line(1))),
    ("node 7.0@1:S\nedge 7.0@1:S\n", Err(GraphFault::Line(2))),
    (
        "node 7.0@1:S\nedge 7.0@1:S 7.0@1:S 7.0@1:S\n",
        Err(GraphFault::Line(2)),
    ),
    // the last line has no LF
    ("node 7.0@1:S", Err(GraphFault::Line(1))),
    (
        "node 7.0@1:S\nnode 10.3@0:S\nedge 7.0@1:S 10.3@0:S",
        Err(GraphFault::Line(3)),
    ),
    // a micro-op that the test lacks, a core that no core is, and a stage that the model lacks
    ("node 7.0@1:S\nnode 7.3@1:S\n", Err(GraphFault::Line(2))),
    ("node 7.0@64:S\n", Err(GraphFault::Line(1))),
    (
        "node 7.0@1:S\nedge 7.0@1:S 7.0@1:T\n",
        Err(GraphFault::Line(2)),
    ),
    // an end on no node line, the first and the second
    (
        "node 7.0@1:S\nedge 10.3@0:S 7.0@1:S\n",
        Err(GraphFault::Line(2)),
    ),
    (
        "node 7.0@1:S\nedge 7.0@1:S 10.3@0:S\n",
        Err(GraphFault::Line(2)),
    ),
    // a node line after an edge line, of a new node and of a listed one
    (
        "node 7.0@1:S\nedge 7.0@1:S 7.0@1:S\nnode 10.3@0:S\n",
        Err(GraphFault::Line(3)),
    ),
    (
        "node 7.0@1:S\nedge 7.0@1:S 7.0@1:S\nnode 7.0@1:S\n",
        Err(GraphFault::Line(3)),
    ),
    // two lines are refused
    (
        "node 7.0@1:S\nedge 7.0@1:S 10.3@0:S\nnode\n",
        Err(GraphFault::Line(2)),
    ),
];

/// Writes the nodes, a bar and the edges, each in its order: `0@1:5 1@0:5 | 0@1:5>1@0:5`.
fn show_graph(out: &mut Vec<u8>, graph: &Graph) -> Result<(), Memory> {
    for node in graph.nodes.as_slice() {
        show_node(out, *node)?;
        put(out, b" ")?;
    }
    put(out, b"|")?;
    for (from, to) in graph.edges.as_slice() {
        put(out, b" ")?;
        show_edge(out, *from, *to)?;
    }
    Ok(())
}

fn is_shown(alloc: Global, graph: &Graph, want: &str) -> Result<bool, Memory> {
    let mut out = Vec::new(alloc);
    show_graph(&mut out, graph)?;
    Ok(out.as_slice() == want.as_bytes())
}

/// Whether the text is read as this.
fn is_read(
    alloc: Global,
    front: &Front,
    text: &str,
    want: Result<&'static str, GraphFault>,
) -> Result<bool, Memory> {
    match (
        read_graph(alloc, &NodeText::of(front), text.as_bytes()),
        want,
    ) {
        (Ok(graph), Ok(shown)) => is_shown(alloc, &graph, shown),
        (Err(fault), Err(wanted)) => Ok(fault == wanted),
        _ => Ok(false),
    }
}

/// Each text is read so.
fn each_is_read(rt: &impl Abort, alloc: Global, front: &Front) {
    for (text, want) in TEXTS {
        let is_so = is_read(alloc, front, text, *want);
        assert!(rt; is_so.unwrap_or(false), "{text}");
    }
}

/// The stages and micro-ops are those of the tests of nodes.
#[test]
fn a_graph_is_read_in_order_or_its_first_wrong_line_told(rt: HostRuntime) -> Result<(), Fail> {
    let front = front_of(rt.alloc(), STAGES, OPS).ok_or("no front")?;
    each_is_read(&rt, rt.alloc(), &front);
    Ok(())
}
