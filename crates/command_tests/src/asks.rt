//! The command ask: words with their certificates, and refusals of the three files.
pub(crate) mod endings;
mod fronts;
pub(crate) mod texts;
pub(crate) mod words;
