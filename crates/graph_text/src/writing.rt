ghost use Rattle.std.specs.Prelude.{All, ◌++◌};
ghost use Rattle.std.specs.List.{flat_map};
ghost use Rattle.pc_common.specs.Room.{Puts};
ghost use Rattle.pc_common.specs.Writes.{Writes};
ghost use Rattle.graph_text.specs.Graphs.{text_of_graph, node_line_text, edge_line_text, IsKeyIn, IsEdgeIn};

use super::graph::Graph;
use pc_common::{Failed, Room, Sink};
use pc_ground::{LinePart, NodeKey, NodeText, put_line_parts};

/// Puts the line of a node.
fn put_node_line<K: Sink>(
    room: &mut Room<'_, K>,
    names: &NodeText<'_>,
    key: NodeKey,
) -> Result<(), Failed>
    requires { IsKeyIn names.now key }
    ensures { Puts K.view room.old room.new result (node_line_text names.now key) }
{
    put_line_parts(
        room,
        names,
        &[
            LinePart::Bytes(b"node "),
            LinePart::Node(key),
            LinePart::Bytes(b"\n"),
        ],
    )
}

/// Puts the line of an edge.
fn put_edge_line<K: Sink>(
    room: &mut Room<'_, K>,
    names: &NodeText<'_>,
    from: NodeKey,
    to: NodeKey,
) -> Result<(), Failed>
    requires from { IsKeyIn names.now from }
    requires to { IsKeyIn names.now to }
    ensures { Puts K.view room.old room.new result (edge_line_text names.now (from, to)) }
{
    put_line_parts(
        room,
        names,
        &[
            LinePart::Bytes(b"edge "),
            LinePart::Node(from),
            LinePart::Bytes(b" "),
            LinePart::Node(to),
            LinePart::Bytes(b"\n"),
        ],
    )
}

/// Puts a line for each node.
fn put_nodes<K: Sink>(
    room: &mut Room<'_, K>,
    names: &NodeText<'_>,
    keys: &[NodeKey],
) -> Result<(), Failed>
    requires { All (IsKeyIn names.now) keys.now }
    ensures { Puts K.view room.old room.new result (flat_map (node_line_text names.now) keys.now) }
{
    for key in keys {
        put_node_line(room, names, *key)?;
    }
    Ok(())
}

/// Puts a line for each edge.
fn put_edges<K: Sink>(
    room: &mut Room<'_, K>,
    names: &NodeText<'_>,
    edges: &[(NodeKey, NodeKey)],
) -> Result<(), Failed>
    requires { All (IsEdgeIn names.now) edges.now }
    ensures { Puts K.view room.old room.new result (flat_map (edge_line_text names.now) edges.now) }
{
    for ends in edges {
        put_edge_line(room, names, ends.0, ends.1)?;
    }
    Ok(())
}

/// Puts the lines of the nodes, and then those of the edges.
fn put_graph<K: Sink>(
    room: &mut Room<'_, K>,
    names: &NodeText<'_>,
    graph: &Graph,
) -> Result<(), Failed>
    requires nodes { All (IsKeyIn names.now) graph.now.nodes }
    requires edges { All (IsEdgeIn names.now) graph.now.edges }
    ensures { Puts K.view room.old room.new result
        (flat_map (node_line_text names.now) graph.now.nodes ++ flat_map (edge_line_text names.now) graph.now.edges) }
{
    put_nodes(room, names, graph.nodes.as_slice())?;
    put_edges(room, names, graph.edges.as_slice())
}

/// Writes a line for each node, and then one for each edge: `node NODE` and `edge NODE NODE`.
/// It writes no header.
///
/// The lines go to the sink in pieces of at most 4,096 bytes, and full ones but for the last. Takes no memory.
/// Where a call of the sink fails, the first bytes of the lines went out, but not all.
pub fn write_graph<K: Sink>(sink: &mut K, names: &NodeText<'_>, graph: &Graph) -> Result<(), Failed>
    requires nodes { All (IsKeyIn names.now) graph.now.nodes }
    requires edges { All (IsEdgeIn names.now) graph.now.edges }
    ensures { Writes K.view sink.old sink.new result (text_of_graph names.now graph.now) }
{
    let mut room = Room::new(sink);
    put_graph(&mut room, names, graph)?;
    room.flush()
}
