/// A position of the tree that is asserted on the first open branch, or, where `negated` is set, a position
/// of the tree's negation: that the position is false is asserted.
#[derive(Clone, Copy)]
pub(crate) struct Place {
    pub(crate) negated: bool,
    pub(crate) position: usize,
}
