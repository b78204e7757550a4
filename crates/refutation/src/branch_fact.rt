use pc_ground::NodeKey;

/// What is known on a branch of a ground tree: which positions without a literal are asserted, and what literals say.
#[derive(Clone, Copy, PartialEq, Eq, Hash)]
pub enum BranchFact {
    /// The position is asserted, under the sign `~` where the flag is set, and has no literal.
    At(bool, usize),
    /// The first node happens before the second.
    Edge(NodeKey, NodeKey),
    /// It is denied that the first node happens before the second.
    NoEdge(NodeKey, NodeKey),
    /// The node is denied.
    NoNode(NodeKey),
    /// The node is asserted, by itself or as an end of an edge.
    Present(NodeKey),
}
