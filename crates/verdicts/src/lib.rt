//! What the search finds of a front, with the text of its certificate; and the command `check MODEL TEST`: is the outcome
//! of the test observable on the model?
//!
//! Clause: `verdict_on` returns a graph or a refutation of the version asked for, of the front given (`verdict`,
//! `version`, `front`); `check` the verdict on two files, or how the command ends before one (`outcome`).
//!
//! ```rust
//! // the one axiom is `exists microop "i", True`, the test has no micro-op, and `sink` is empty
//! let verdict = verdict_on(alloc, front, Version::One)?;
//! assert!(rt; verdict_status(&verdict) == Status::Unobservable);
//! assert!(rt; write_verdict(&mut sink, &verdict).is_ok());
//! assert!(rt; sink.taken() == b"unobservable\ntest unstated\nfalse\nend\n".as_slice());
//! ```
//!
//! `verdict_on` searches a front: a graph that shows the outcome, or a refutation of the ground tree.
//! `short_verdict_on` leaves out of a refutation the splits that it does not need. `write_verdict` writes the
//! certificate of that, and `verdict_status` is the status that goes with it. `count_found` counts the splits and the
//! leaves of what was found, which `gen` reports of the search itself.
//!
//! `check` reads two files, and nothing after them. It returns a short verdict, whose text is the certificate and whose
//! status is the verdict's; or the `Ending` of the two files, or `Memory`.
#![tactic(auto)]

mod command;
mod counting;
mod report;
mod verdict;

pub use command::check;
pub use counting::{Counts, count_found};
pub use report::write_verdict;
pub use verdict::{FoundVerdict, short_verdict_on, verdict_kind, verdict_on, verdict_status};
