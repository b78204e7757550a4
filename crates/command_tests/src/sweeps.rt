//! The command sweep: which values the open reads take, the verdicts of the rows, and the faults of patterns.
pub(crate) mod endings;
pub(crate) mod faults;
mod many;
pub(crate) mod rows;
pub(crate) mod values;
