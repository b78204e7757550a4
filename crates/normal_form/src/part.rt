/// What the folding of constants leaves of a part of a formula.
#[derive(Clone, Copy)]
pub(crate) enum Part {
    /// A constant, which has no row as long as it may be folded away.
    Constant(bool),
    /// A tree without constants, with its rows.
    Rows,
}
