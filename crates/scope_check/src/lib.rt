//! Names to numbers: an expanded axiom with slots for its variables, numbers for its stages and rows
//! for its predicates.
//!
//! Clause: `close` returns an axiom with slots and numbers in place of names, or its first name fault (`ok`, `err`).
//!
//! ```rust
//! use macro_expand::expand;
//! use uspec_lexer::tokens;
//! use uspec_parser::parse_model;
//!
//! let text = b"Axiom \"x\": forall microop \"i\", IsAnyRead j.";
//! let model = parse_model(alloc, &tokens(alloc, text)?)?;
//! let axioms = expand(alloc, &model)?;
//! let refused = close(alloc, &model, &axioms[0]);
//! assert!(rt; matches!(refused, Err(NameFault::Unbound { at: Place { offset: 41 } })));
//! ```
//!
//! `close` walks the formula once, outside before inside and left before right, with the variables that
//! are in scope at each place. It returns the closed formula, or the first name fault with what its
//! fault word carries. `close_query` does the same with a formula that is asked of a model and stands in a file of its
//! own, and says of a fault in which of the two files it stands. Names matter only by which of them are one: the laws
//! `renaming_keeps_..` say that a formula with other names, apart where they were, has the same closing and the same
//! first fault.
#![tactic(auto)]

mod arguments;
mod closed_parts;
mod closing;
mod fault;
mod filed;
mod laws;
mod nodes;
mod query;
mod scope;
mod statics;
mod walk;

pub use closing::close;
pub use fault::NameFault;
pub use laws::{
    closing_keeps_truth, query_faults_are_name_faults, renaming_keeps_closings,
    renaming_keeps_name_faults, renaming_keeps_query_faults,
};
pub use query::close_query;
