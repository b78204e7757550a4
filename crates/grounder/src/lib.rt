//! Grounding: what closed axioms say of one test, with no quantifier, predicate or name left; and the front that comes
//! of it.
//!
//! Clause: `ground` returns a formula whose normal form is the ground tree of closed axioms in a case (`tree`).
//!
//! ```rust
//! // the one axiom is `exists microop "i", True`, and the case has no micro-op
//! let said = ground(alloc, &case, &axioms)?;
//! assert!(rt; matches!(said, Ground::False));
//! ```
//!
//! `ground` unfolds each quantifier over its range and each list over its members, decides the
//! predicates, and folds constants on the way: members that follow one that decides are not walked. A
//! negation stays where it is; an implication becomes Or of the negated premise and the conclusion.
//!
//! `front_of` makes a front of its parts, which are a case, stages and closed axioms: beside them it has their ground
//! tree and the numbers of its nodes. It knows no parser, so a command that asks for another case or for other axioms
//! gets its front by `front_with`, without the files being read again.
#![tactic(auto)]

mod atoms;
mod formula;
mod fronts;
mod grounded;
mod grounding;
mod laws;
mod operator;

pub use fronts::{front_of, front_with};
pub use grounding::ground;
pub use laws::a_constant_is_the_whole;
