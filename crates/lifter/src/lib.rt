//! Lifting: a refutation of a ground tree becomes one on the closed axioms themselves.
//!
//! Clause: `kind_of_fact` returns which constant a fact is in a test, if it is one; `lift_steps` returns a lifted
//! refutation of closed axioms, of a refutation of version 1 of their ground tree (their clauses).
//!
//! ```rust
//! // the one axiom is `exists microop "i", True`, the test has no micro-op, and the refutation is `false`
//! let steps = lift_steps(alloc, &front.case, front.axioms.as_slice(), &front.tree, &refutation)?;
//! assert!(rt; steps.len() == 1);
//! ```
//!
//! `lift_steps` follows the steps of a refutation of version 1. On each branch it knows, for each Or and each literal that is
//! asserted on the branch of the tree, the fact that it is the tree of. A split of an Or becomes a split of its fact,
//! and a side is unfolded at once: And is taken apart, and an Or of which one side is a constant is split, with the
//! side that is False closed. `specs/` say what is known, and that the steps so far lead to the open branches.
//!
//! A fact stands for a tree: its formula under its sign, with quantifiers unfolded, predicates decided and constants
//! folded (`specs/Trees.antt`). `kind_of_fact` returns whether that tree is True, False or neither, without making it. A
//! list's kind is known at once, however long the list is. `part_at` lists the parts that hold with a fact.
#![tactic(auto)]

mod closing;
mod fact_kind;
mod following;
mod formula_kind;
mod kind;
mod known;
mod leaves;
mod line;
mod listed_parts;
mod moving;
mod roots;
mod rows;
mod said_kind;
mod state;
mod unfolding;

pub use fact_kind::{false_part, kind_of_fact, last_open};
pub use following::lift_steps;
pub use kind::FactKind;
pub use line::{LiftedSteps, Line};
pub use listed_parts::{part_at, part_count};
