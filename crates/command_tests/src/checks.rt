//! The command check: verdicts with their certificates, and refusals.
pub(crate) mod answers;
pub(crate) mod checking;
mod conflicts;
pub(crate) mod ties;
pub(crate) mod translation;
