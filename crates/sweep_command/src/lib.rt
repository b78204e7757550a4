//! The command `sweep MODEL PATTERN`: which outcomes of the reads are observable on the model?
//!
//! Clause: `sweep_files` returns a pattern with an answer for each of its rows, or how the command ends before that
//! (`outcome`).
//!
//! ```rust
//! // m.uspec has no axiom, and p.pattern is
//! // `Litmus "p". Microop 0 0 0 0 (Read (VA 0 0) (PA 0 0) (Data Any)).`
//! let inputs = Inputs { model: "m.uspec", test: "p.pattern" };
//! let swept = sweep_files::<MemFiles>(alloc, inputs, &mut files)?;
//! assert!(rt; write_sweep(&mut sink, &swept).is_ok());
//! assert!(rt; sink.taken() == b"sweep 1\nrow 0 observable\nobservable 1\nunobservable 0\nend\n".as_slice());
//! ```
//!
//! A pattern is a test in which reads may have `(Data Any)`. The command reads the model, then the pattern, at most
//! 1,048,576 bytes each, and answers for every combination of values. It returns a `Swept`, whose text has a line for
//! each row and the counts, and whose status is `Done`; or the `Ending` of the two files, or `Memory`.
//!
//! `sweep` answers for a pattern and closed axioms. The model is read and closed once. For each row its closed axioms
//! are grounded in the row's case and searched, and nothing of a row is kept but its answer. `specs/Sweeps.antt` says
//! what the answers are.
#![tactic(auto)]

mod command;
mod inputs;
mod laws;
mod report;
mod row;
mod sweeping;

pub use command::{Swept, sweep_files};
pub use laws::text_is_the_sweep;
pub use report::write_sweep;
pub use sweeping::sweep;
