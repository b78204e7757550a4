//! A table of bits that can go back to what it was.
//!
//! Clause: a table of bits goes back to exactly what it was at a mark (`tables`).
//!
//! ```rust
//! // `steps` counts in the caller's ledger
//! let mut table = UndoTable::new(alloc, 2, 1)?;
//! let mark = table.mark();
//! assert!(rt; table.set_bit(1, 5)? && table.bit(1, 5));
//! table.undo(mark, &mut steps);
//! assert!(rt; !table.bit(1, 5));
//! ```
//!
//! The table has rows of words, 64 columns to a word. Each word that changes is put on a trail first, with
//! what it held. A mark is a length of the trail, and `undo` puts the words after it back, the newest
//! first. The trail's room is taken before a word changes, so a refusal of memory changes nothing.
//!
//! `or_words` and `meets_words` are plain loops over words. `Steps` counts the rows that are joined and the words
//! that are put back, without a cost.
#![tactic(auto)]

mod kernels;
mod mark;
mod steps;
mod table;
mod trail;

pub use kernels::{meets_words, or_words};
pub use mark::Mark;
pub use steps::Steps;
pub use table::UndoTable;
