/// What a branch asserts beside what the branch before it had: a side of a split, or the whole tree.
#[derive(Clone, Copy)]
pub(crate) struct Side {
    /// Whether the side is one of the tree's negation.
    pub(crate) negated: bool,
    /// Where the side's root stands.
    pub(crate) root: usize,
    /// Where the root of the left side stands, whose negation is asserted before this side. The right side
    /// of version 2 has it: the left side was refuted before.
    pub(crate) denied: Option<usize>,
}
