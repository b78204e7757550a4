//! The command `ask MODEL TEST QUERY`: does the query's formula hold in all worlds of the test, in some, or in none?
//!
//! Clause: `ask` returns whether a formula holds in all worlds that satisfy the model, in some, in none, or whether
//! there is none (its clause; `words_are_true`); `ask_files` that of three files (`outcome`).
//!
//! ```rust
//! // m.uspec is `Axiom "x": exists microop "i", True.`, t.test is `Litmus "e".`, and q.txt is `True`
//! let inputs = Inputs { model: "m.uspec", test: "t.test" };
//! let found = ask_files::<Solver, MemFiles>(alloc, inputs, "q.txt", &mut files)?;
//! assert!(rt; word(&found.added.found, &found.against.found) == AskWord::Vacuous);
//! ```
//!
//! It reads the three files, at most 1,048,576 bytes each, and judges them in this order. It returns a `FoundAsk`,
//! whose status is `Done`; or an `Ending`, which is a failed call, refused memory or the first fault of the three. Its
//! text is the word, and two certificates: one where the formula is the model's last axiom, and one where its denial
//! is.
//!
//! `ask` searches these two fronts. A graph of the first is a world where the formula holds, a graph of the second one
//! where it does not, and a refutation says that there is no such world. So the two answers tell the word: `always`,
//! `never`, `sometimes`, or `vacuous`, where there is no world at all. What grounds and searches is a `FrontSearch`, such
//! as `search_trait::Solver`. `specs/Asking.antt` says what the two fronts and answers are, and `specs/Words.antt` what
//! each word says of the worlds.
//!
//! `read_inquiry` takes the bytes of the three files. A query's file has one formula and nothing after it. What macros,
//! sizes and names say against it is judged as for an axiom `~F` after the model's last item: its macros are those of
//! the model, and its size comes to that of the axioms. A fault stands in the query, but a name fault in the body of a
//! macro stands in the model. `specs/Queries.antt` says what the bytes of a query say and which fault is its first,
//! `specs/Inquiries.antt` what three files say.
#![tactic(auto)]

mod asking;
mod command;
mod copies;
mod denial;
mod ends;
mod files;
mod formula;
mod fronts;
mod inquiry;
mod laws;
mod outcome;
mod report;
mod telling;
mod three_files;

pub use asking::{ask, ask_parts};
pub use command::{FoundAsk, ask_files};
pub use inquiry::Inquiry;
pub use laws::{no_query_fault, one_query, one_query_fault, query_or_fault, words_are_true};
pub use outcome::{AskWord, Asked};
pub use report::write_ask;
pub use telling::word;
pub use three_files::read_inquiry;
