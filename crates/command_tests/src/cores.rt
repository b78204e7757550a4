//! The command core: minimal sets of axioms with their certificates, and refusals.
pub(crate) mod endings;
pub(crate) mod found;
mod parts;
