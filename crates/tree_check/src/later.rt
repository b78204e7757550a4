use super::side::Side;

/// A branch that waits: the first facts of the branch before it, and one side more.
#[derive(Clone, Copy)]
pub(crate) struct Later {
    /// How many facts there were before the split.
    pub(crate) facts: usize,
    pub(crate) side: Side,
}
