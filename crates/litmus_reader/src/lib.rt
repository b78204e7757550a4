//! Test files to cases: the reader of litmus tests of either format, with page-table entries or without.
//!
//! Clause: `read_case` returns the case of a test, or its first fault (`ok`, `err`).
//!
//! ```text
//! test  = (Litmus | Litmus2) TEXT "." item*
//! item  = Microop g core thread n "(" acc ")" "."
//!       | Relationship ANY g n "->" g n "."
//!       | Init pa (d | entry) "."
//!       | Final pa (d | entry) "."
//!       | Permitted "." | Forbidden "."
//! acc   = (Read | Write) ANY* "(" VA t x ")" pa ("(" Data d ")" | entry)
//!       | Fence ANY*
//! pa    = "(" PA t x ")" | "(" Entry t ")"
//! entry = "(" Maps t a d ")"
//! ```
//!
//! The first word says the format. In a test that begins with `Litmus` no page-table entry stands: an
//! address is a page, `(PA t x)`, and a value is a number, `d`.
//!
//! Words are names by their spelling and none is reserved; ANY is any name; g, core, thread, n, t, x, a
//! and d are numbers. Items stand in any order, but a `Relationship` names micro-ops of earlier lines.
//!
//! A file is judged in three passes, each over what the one before has found to be well-formed: the
//! tokens (`uspec_lexer`), the grammar (`ll_grammar`, over the table of `phrase`), and the lines with
//! what they say of one another. So a fault of content is never named before one of syntax.
//!
//! `specs/Syntax.antt` has the productions, `specs/Items.antt` the case that the lines make,
//! `specs/Content.antt` the faults of content and `specs/Answer.antt` the whole. The laws in `laws.rt` say
//! that a text has a case or a first fault, one at most of each, and not both, and that a fault stands
//! within the text or at its end.
//!
//! ```rust
//! let case = read_case(alloc, b"Litmus \"d\".\nMicroop 0 0 0 0 (Fence).\nPermitted.")?;
//! assert!(rt; case.ops() == 1 && case.expect() == Expect::Permitted);
//! let refused = read_case(alloc, b"Litmus");
//! assert!(rt; matches!(refused, Err(CaseFault::Syntax(Place { offset: 6 }))));
//! ```
#![tactic(auto)]

mod builder;
mod content_fault;
mod fault;
mod format;
mod item;
mod laws;
mod lists;
mod marks;
mod phrase;
mod read;
mod reading;
mod rows;
mod syntax;
mod terminal;
mod values;

pub use fault::CaseFault;
pub use laws::{case_or_fault, faults_within, no_fault, one_case, one_fault};
pub use lists::CaseLists;
pub use read::{read_case, read_lists};
