//! The command `core MODEL TEST`: which axioms of the model forbid the outcome of the test?
//!
//! Clause: `find_core` returns which axioms of two files forbid the outcome, or how the command ends before that
//! (`outcome`).
//!
//! ```rust
//! // m.uspec is `Axiom "x": exists microop "i", True.`, and t.test is `Litmus "e".`
//! let inputs = Inputs { model: "m.uspec", test: "t.test" };
//! let found = find_core::<TestFile, Solver, MemFiles>(alloc, inputs, &mut files)?;
//! assert!(rt; matches!(found.core, Core::Minimal { .. }));
//! ```
//!
//! After the two files it reads nothing. It returns a `FoundCore`, whose status is `Done`; or the `Ending` of the two
//! files, or `Memory`. Its text is `core none` with the certificate of a graph, where the outcome is observable. Where
//! it is not, the text names a minimal set of axioms, with the certificate of a refutation of the model of just those
//! axioms, and for each of them that of a graph on the model of the others. These certificates are those that `check`
//! writes for these models.
#![tactic(auto)]

mod certificates;
mod command;
mod report;

pub use command::{FoundCore, find_core};
pub use report::write_core;
