use super::way::Way;

/// What closes a branch. Its facts are named by their numbers, from 0.
#[derive(Clone, Copy)]
pub enum FactLeaf<'a> {
    /// The fact holds in no world.
    False(u64),
    /// The edges, of which the first stands apart, are joined and end where they begin.
    Cycle(u64, &'a [u64]),
    /// The edges, of which the first stands apart, are joined, and the last fact denies an edge from their start to
    /// their end.
    Path(u64, &'a [u64], u64),
    /// The first fact denies a node that the second one asserts, by itself or as an end of an edge.
    Absent(u64, u64),
}

/// A step of a lifted refutation, at the first open branch.
#[derive(Clone, Copy)]
pub enum FactStep<'a> {
    /// Adds the part of a fact that is named so.
    Derive(Way, u64),
    /// Puts two branches in the place of one, each with one side of the fact more.
    Split(u64),
    Close(FactLeaf<'a>),
}
