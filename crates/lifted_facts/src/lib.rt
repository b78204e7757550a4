//! Facts of lifted refutations: what is said of a world by parts of closed axioms, with neither ground tree nor
//! normal form.
//!
//! Clause: a refutation on the axioms themselves, step by step, leaves no world in which all are true
//! (`lifted_is_sound`; `advanced`).
//!
//! ```rust
//! // the one axiom is `exists microop "i", True`, and the case has no micro-op
//! let mut branches = FactBranches::new(alloc, &case, &axioms)?;
//! assert!(rt; branches.take(FactStep::Close(FactLeaf::False(0)))?);
//! assert!(rt; branches.is_closed());
//! ```
//!
//! A fact is a sign and a part of an axiom with the values of its slots, or one node, or one edge. `part` takes a fact
//! apart where all of its parts hold with it, `sides` where one of two does, and `is_false` says that no world makes it
//! true. `FactBranches` follows the steps of a refutation: which branches of facts are open.
//!
//! A fact borrows its formula from the axioms, and nothing is copied but the values of its slots.
//! `specs/Lifted.antt` says what a lifted refutation is; a law says that it leaves no world.
#![tactic(auto)]

mod branches;
mod fact;
mod falsity;
mod inside;
mod laws;
mod leaves;
mod member;
mod named;
mod open_branches;
mod parts;
mod side;
mod step;
mod waiting;
mod way;

pub use fact::{Fact, Said};
pub use falsity::is_false;
pub use laws::{lifted_is_sound, one_list_is_left, runs_are_joined};
pub use open_branches::FactBranches;
pub use parts::part;
pub use side::sides;
pub use step::{FactLeaf, FactStep};
pub use way::{Instance, Way};
