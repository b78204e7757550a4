//! The command `gen N`: what is found of the ring of N cores?
//!
//! Clause: `gen_texts` returns the two texts of a ring of N cores; `generate` the verdict on them with counts, or their
//! refusal (their clauses).
//!
//! ```rust
//! let report = generate(alloc, 2)?;
//! assert!(rt; report.verdict == Verdict::Unobservable);
//! assert!(rt; report.nodes == 4 && report.splits == 2 && report.leaves == 3);
//! ```
//!
//! In the ring of n cores each core writes one address, and then reads the value that the next core writes; the last
//! core reads the value of the first. The outcome is forbidden, and no execution shows it: each write would be before
//! the next one in a cycle. The model is the same for every n.
//!
//! The command reads no file. It makes the two texts of the ring by `gen_texts`, and searches them by `solve`. What it
//! counts are the splits and leaves of the refutation that the search found, which `check` shortens before it writes
//! one. It returns a `Report`, whose text has six lines and whose status is `Done`; or the refusal of the first fault of
//! the two texts, or `Memory`.
#![tactic(auto)]

mod command;
mod litmus;
mod model;
mod pair;
mod putting;
mod report;

pub use command::generate;
pub use pair::gen_texts;
pub use report::{Report, write_report};
