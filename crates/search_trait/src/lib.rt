//! Grounding and searching as one trait, over which `core` and `ask` are generic, so that their proofs stand on its
//! contract alone.
//!
//! Clause: `Solver` makes fronts and searches them, for commands that take any `FrontSearch` (the contract of
//! `FrontSearch`).
//!
//! ```rust
//! // what `core` and `ask` find is found by the solver
//! let found = Solver::found_of(alloc, &front)?;
//! assert!(rt; matches!(found, Answer::Observable(_)));
//! ```
//!
//! `FrontSearch` says what grounds the parts of a model and a test, and what is found of a front; `Solver` does it, by
//! `grounder` and `solver`. A crate that asks for many fronts and answers, as `axiom_core` and `ask_command` do, is
//! generic over `FrontSearch`. So it is proved by these contracts alone, and the prover need not load the grounder and
//! the search for it. What is found is shortened: `search_front` searches, and `shorten_found` leaves out of a
//! refutation the splits that it does not need.
//!
//! `specs/Found.antt` says what the search finds of a front.
#![tactic(auto)]

mod search;
mod searching;
mod shortening;
mod solver_search;

pub use search::FrontSearch;
pub use searching::search_front;
pub use shortening::shorten_found;
pub use solver_search::Solver;
