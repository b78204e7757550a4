use pc_common::Listed;

/// A list of node numbers.
pub type Numbers = Listed<u32>;

/// Why literals can't stand together.
pub enum Clash {
    /// An edge is asserted from each node to the next, and from the last to the first.
    Cycle(Numbers),
    /// An edge is asserted from each node to the next, and the first is denied to come before the last.
    Path(Numbers),
    /// The node is denied, and asserted as a node or as an end of an edge.
    Absent(u32),
}

// By hand: docs/DECISIONS.md, "Drops are written by hand".
impl Drop for Clash {
    fn drop(self) {
        match self {
            Clash::Cycle(_) => {}
            Clash::Path(_) => {}
            Clash::Absent(_) => {}
        }
    }
}

/// What came of a literal.
#[derive(Drop)]
pub enum Added {
    /// It stands after the others.
    Kept,
    /// It can't stand with the others, and the graph is as it was.
    Clash(Clash),
}
