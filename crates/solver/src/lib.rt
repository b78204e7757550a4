//! The search for a world that satisfies a ground tree: a graph that generates one, or a refutation.
//!
//! Clause: `solve` returns a graph that generates a world where the tree is true, or a refutation of the version asked
//! for (its clause).
//!
//! ```rust
//! // the tree is True, and `steps` counts in the caller's ledger
//! let answer = solve(alloc, &front.tree, &front.numbering, Version::One, &mut steps)?;
//! assert!(rt; matches!(answer, Answer::Observable(_)));
//! ```
//!
//! The search goes over the tree's rows with numbers in the place of nodes. On the first open branch it
//! keeps the asserted positions, and their literals in an `OrderGraph`, which stay consistent. A split of
//! an asserted Or puts its left side on that branch and lets its right side wait with a mark of the graph;
//! a clash closes the branch by a leaf, and the next one that waits is entered. With every asserted Or true
//! or split, all of the tree is true in the world that the literals generate. No call nests as deep as the
//! tree, and no table is copied for a branch.
//!
//! In version 2 a right side asserts first that the left one is false: its positions under a sign, which are
//! positions of the tree's negation. In version 1 no position has a sign.
//!
//! It stands in three folders. In `tree` are the rows, and in `search` is what the clauses speak of. In `hints` is which Or
//! comes next, of which no clause speaks: a hint's own head says when it is asked.
//!
//! One turn, with the file of each arrow, in `search` where no folder is named:
//!
//! ```text
//! a candidate of the first open branch          search.rt
//!   | choose the Or to split                    choose.rt; proposed by hints/propose.rt, and tested by candidate.rt
//!   | its sides; the right one waits            tree/ors.rt, advance.rt, later.rt
//!   v
//! assert the literals of a side    <---------+  enter.rt, asserted.rt; the graph is order_graph's
//!   | a clash: a leaf closes the branch      |  leaf.rt, descend.rt
//!   |   learn from the clash                 |  hints/failures.rt
//!   |   undo to the next side that waits ----+  enter.rt
//!   |   none waits: the refutation              find.rt, search.rt
//!   | no clash: note what the literals changed  hints/changes.rt, hints/watch.rt
//!   v
//! look for a candidate                          find.rt; hints/agenda.rt, and else all that is asserted: candidate.rt
//!   | there is one: the next turn               search.rt
//!   | there is none: the graph                  answer.rt
//! ```
//!
//! What the hints propose is tested. The `agenda` keeps which Ors are pending, which of their sides are closed at once, and,
//! once a side has failed, which have one alternative left or none. `failures` keeps the conflict sets: the splits of the
//! newest ones come first. Where a left side failed without its split, the right side is refuted by the same splits again.
//! Where a side failed without its split, `failures` keeps which steps are not needed for that, and hands them out with the
//! refutation. A hint that memory is refused to goes on without what it was to keep; it notes that, and the next split or
//! leaf returns `Memory`.
//!
//! `solve` runs a `Search` from its first turn to its last. Between two turns the steps so far with the open branches
//! are a partial refutation, and the graph's literals are those of the first open branch.
#![tactic(auto)]

mod hints;
mod laws;
mod search;
mod solving;
mod tree;

pub use laws::consistent_literals_have_a_world;
pub use search::answer::Answer;
pub use search::{Search, Turn};
pub use solving::solve;
