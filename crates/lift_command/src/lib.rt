//! The command `lift MODEL TEST CERT`: a refutation as a lifted one, whose steps speak of the closed axioms.
//!
//! Clause: `lift` returns a text of lines that are a lifted refutation; `lift_files` returns that of a third file, or
//! its refused line, or how the command ends before that (their clauses).
//!
//! ```rust
//! // m.uspec and t.test have no fault, and c.txt has no line
//! let inputs = Inputs { model: "m.uspec", test: "t.test" };
//! let found = lift_files::<TestFile, MemFiles>(alloc, inputs, "c.txt", &mut files)?;
//! assert!(rt; matches!(found, FoundLift::Refused(1)));
//! assert!(rt; lift_status(&found) == Status::CertRefused);
//! ```
//!
//! Where the two files have no fault it reads the third, at most 67,108,864 bytes, and judges it by the rules of
//! version 1 alone. It returns a `FoundLift`: the text of the lifted refutation, whose status is `Done`; that a graph
//! holds, told as `verify` tells it; or the line that is refused. Or it returns the `Ending` of the
//! two files, or a failed call or want of memory at the third. `lift` makes the text, a line for each step. It is one
//! that the checker of lifted texts takes, whatever its length; `verify-lifted` takes it where it is within the limit.
#![tactic(auto)]

mod command;
mod lifted_text;
mod lifting;
mod lines;
mod report;
mod words;

pub use command::lift_files;
pub use lifted_text::lift;
pub use lifting::FoundLift;
pub use report::{lift_status, write_lift};
