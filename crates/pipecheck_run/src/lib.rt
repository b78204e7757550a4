//! The public calls of the top, each from the crate that has it. They are `run`, from the words of a command and the
//! bytes of its files to the bytes of the answer; `front` and `read_model`, from bytes to what a model and a test say;
//! and `gen_texts`, the two texts of a ring. With them stand the laws on their answers.
//!
//! Clause: each call that it hands on has the clauses of the crate that has it.
//!
//! ```rust
//! // the words are `gen` and `2`, and `sink` is empty
//! assert!(rt; run(alloc, &words, &mut files, &mut sink) == Status::Done);
//! let text = b"gen 2\nunobservable\nnodes 4\nsplits 2\nleaves 3\nend\n";
//! assert!(rt; sink.taken() == text.as_slice());
//! ```
#![tactic(auto)]

pub use command_base::{case_or_first_fault, no_first_fault, one_first_fault, one_model_and_case};
pub use gen_command::gen_texts;
pub use pc_front::{FrontEnd, ModelFront, front, read_model};
pub use pc_ground::{Axioms, Stage, Stages};
pub use top_call::{one_command, run, written_is_verified};
