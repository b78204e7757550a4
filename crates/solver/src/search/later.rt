use crate::tree::side::Side;
use order_graph::Mark;

/// A branch that waits: the right side of a split, which begins with what the first open branch had before.
#[derive(Clone, Copy)]
pub(crate) struct Later {
    /// How many positions were asserted before the split.
    pub(crate) count: usize,
    /// The graph's mark for their literals.
    pub(crate) mark: Mark,
    /// What the right side asserts.
    pub(crate) side: Side,
}
