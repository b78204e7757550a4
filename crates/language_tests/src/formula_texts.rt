//! What the tables of tests compare: formulas, written or closed, as texts of their own; texts of pieces; and faults by
//! their words and what they carry.
//!
//! ```rust
//! let mut text = Vec::new(alloc);
//! show_closed(&mut text, &closed.body)?;
//! assert!(rt; text.as_slice() == b"Forall(microop, OnCore 3 #0)".as_slice());
//! ```
mod closed;
mod faults;
mod pieces;
mod showing;
mod written;

pub(crate) use closed::show_closed;
pub(crate) use faults::{Told, tell_fault};
pub(crate) use pieces::{Pieces, join_pieces, put, put_number};
pub(crate) use written::show;
