//! From the bytes of a model and a test to the ground tree, or the exact first fault.
//!
//! Clause: `front` and `read_parts` return what two files say, or their first fault (`ok`, `err`).
//!
//! ```rust
//! use pc_front::front;
//!
//! let model = b"Axiom \"x\": exists microop \"i\", True.";
//! let front = front(alloc, model, b"Litmus \"e\".")?;
//! assert!(rt; front.tree.len() == 1 && matches!(front.tree.row(0).kind, RowKind::False));
//! ```
//!
//! `read_model` joins the readers of a whole model: tokens, tree, stages, macros, names. `parse_bytes` and
//! `judge_model` are its two halves, for who needs the model as written too. `read_parts` adds the test, and `front`
//! what search and checker work on: the ground tree, in flat rows, with its node numbers.
#![tactic(auto)]

mod faults;
mod laws;
mod limits;
mod model_front;
mod reading;
mod two_files;

pub use faults::test_refusal;
pub use laws::{limits_are, model_or_fault, no_model_fault, one_model, one_model_fault};
pub use limits::MAX_FILE;
pub use model_front::{FrontEnd, ModelFront};
pub use reading::{judge_model, parse_bytes, read_model};
pub use two_files::{front, parts_of, read_parts};
