//! The model as trees and lists: as written, with its macros expanded, and closed, that is with slots
//! in place of names and numbers in place of stages.
//!
//! Clause: makers of formulas return the formula asked for, and `copy` of a closed one an equal one (their clauses); a
//! predicate is found by its name (`found`).
//!
//! ```rust
//! use pc_syntax::{Pred, Takes};
//!
//! assert!(rt; Pred::of_name(b"OnCore") == Some(Pred::OnCore));
//! assert!(rt; Pred::OnCore.arity() == 2 && Pred::OnCore.takes(0) == Takes::Core);
//! ```
//!
//! Its `specs/` say what a model means: the table of predicates, the truth of a written formula in a
//! case, a world and an environment, which worlds satisfy a model, and when an outcome is observable.
//! They also say what expansion and closing make of a formula, what the truth of a closed formula is,
//! and which fault of stages, macros, sizes and names is a model's first.
#![tactic(auto)]

mod bound;
mod boxed;
mod closed;
mod closed_formula;
mod closed_term;
mod expanded;
mod formula;
mod laws;
mod limits;
mod model;
mod pred;
mod term;

pub use bound::{Bound, Env};
pub use closed::Closed;
pub use closed_formula::ClosedFormula;
pub use closed_term::{ClosedArg, ClosedArgs, ClosedEdge, ClosedEdges, ClosedNode, ClosedNodes};
pub use expanded::Expanded;
pub use formula::Formula;
pub use laws::limits_are;
pub use limits::{MAX_HEIGHT, MAX_SIZE, MAX_STAGE, MAX_VARIABLES};
pub use model::{Item, Items, ModelFile, StageItem, StageItems};
pub use pred::{Pred, Takes};
pub use term::{
    Arg, Args, EdgeTerm, EdgeTerms, Name, Names, NodeTerm, NodeTerms, Sort, Word, Words,
};
