use super::fact::Fact;

/// A branch that waits: it keeps the first facts of the one before it, and has one fact more.
#[derive(Drop)]
pub(crate) struct Waiting<'a> {
    pub(crate) count: usize,
    pub(crate) fact: Fact<'a>,
}
