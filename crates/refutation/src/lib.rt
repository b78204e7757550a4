//! Refutations as step lines: what shows that no world satisfies a ground tree.
//!
//! Clause: step lines are written as the format says, exactly such lines are read, and what was written is read again
//! (`read`, `again`).
//!
//! ```rust
//! // `names` are the names of a front, and `sink` is empty
//! let mut refutation = Refutation::new(alloc);
//! refutation.close_leaf(Step::False)?;
//! assert!(rt; write_refutation(&mut sink, &names, &refutation).is_ok());
//! assert!(rt; sink.taken() == b"false\n".as_slice());
//! let mut row = NodeRow::new(alloc);
//! assert!(rt; matches!(read_line(&names, b"false", &mut row), Ok(StepHead::False)));
//! ```
//!
//! A refutation is a list of steps in prefix order: a split puts the two sides of an asserted Or in the
//! place of the first open branch, and every other step closes that branch. The lines are those of
//! docs/certificates.md. Who follows the steps keeps a `BranchFact` for each thing that is known on the open branch.
#![tactic(auto)]

mod branch_fact;
mod cut;
mod kind;
mod list;
mod node_row;
mod nodes;
mod reading;
mod step;
mod step_head;
mod words;
mod writing;

pub use branch_fact::BranchFact;
pub use cut::Cut;
pub use kind::{Kind, Leaf};
pub use list::Refutation;
pub use node_row::NodeRow;
pub use reading::read_line;
pub use step::{Nodes, Step};
pub use step_head::StepHead;
pub use writing::write_refutation;
