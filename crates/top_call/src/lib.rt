//! The top call: from the words of a command and the bytes of its files to the bytes of the answer.
//!
//! Clause: `run` keeps what docs/proved.md promises (`headline`, `due`, `answers`, `short`, `read_cause`, `write_cause`,
//! `quiet`).
//!
//! ```rust
//! // the words are `gen` and `2`, and `sink` is empty
//! assert!(rt; run(alloc, &words, &mut files, &mut sink) == Status::Done);
//! let text = b"gen 2\nunobservable\nnodes 4\nsplits 2\nleaves 3\nend\n";
//! assert!(rt; sink.taken() == text.as_slice());
//! ```
//!
//! `parse` of `command_base` takes the words, `perform` hands a command to the crate of its own, and `tell` writes the
//! text of the `Reply` that this returned. A command's crate says what it reads and what it returns; here is a line for
//! each command in each table. `pipecheck_run` hands `run` on, beside the other public calls of the top: a crate that
//! hands on `front` carries all that is said of what it returns, and the program, which waits for this one, needs
//! nothing of that.
#![tactic(auto)]

mod laws;
mod replies;
mod reply;
mod top;

pub use command_base::one_command;
pub use laws::written_is_verified;
pub use top::run;
