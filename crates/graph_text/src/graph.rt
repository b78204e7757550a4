use pc_common::Listed;
use pc_ground::NodeKey;

pub type Nodes = Listed<NodeKey>;

pub type Edges = Listed<(NodeKey, NodeKey)>;

/// Nodes, and edges between them: the first node of an edge happens before the second.
pub struct Graph {
    pub nodes: Nodes,
    pub edges: Edges,
}

// By hand: docs/DECISIONS.md, "Drops are written by hand".
impl Drop for Graph {
    fn drop(self) {
        let Graph { nodes: _, edges: _ } = self;
    }
}
