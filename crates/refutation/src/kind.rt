use pc_ground::NodeKey;

/// Why a branch is closed.
#[derive(Clone, Copy)]
pub enum Leaf<'a> {
    /// Asserted edges lead from each node to the next and from the last to the first. At least one node.
    Cycle(&'a [NodeKey]),
    /// Asserted edges lead from each node to the next, and the edge from the first to the last is denied. At
    /// least two nodes.
    Path(&'a [NodeKey]),
    /// The node is denied, and asserted by itself or as an end of an edge.
    Absent(NodeKey),
    /// The whole tree is False.
    False,
}

/// What a step does at the first open branch.
#[derive(Clone, Copy)]
pub enum Kind<'a> {
    /// Splits it, at the Or of this position.
    Split { negated: bool, position: u64 },
    /// Closes it.
    Close(Leaf<'a>),
}
