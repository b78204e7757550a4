use pc_ground::NodeKey;

/// A line of a graph: a node, or an edge, whose first node happens before the second.
#[derive(Clone, Copy)]
pub enum GraphLine {
    Node(NodeKey),
    Edge(NodeKey, NodeKey),
}
