//! Which axioms forbid the outcome: a minimal set of them, with a certificate of each of its claims.
//!
//! Clause: `core` returns a minimal set of axioms that forbid an outcome, or none exactly where it is observable
//! (`core`, `none`).
//!
//! ```rust
//! // the axioms are `True` and `exists microop "i", True`, and the test has no micro-op
//! if let Core::Minimal { kept, .. } = &core::<Solver>(alloc, &front)? {
//!     assert!(rt; kept.len() == 1 && *kept.get(0) == 1);
//! }
//! ```
//!
//! `core` takes a front. Where the outcome is observable it returns the graph that the search finds. Where it is
//! not, each axiom in file order is taken out if the rest still forbids the outcome. The axioms that stay forbid
//! it, and without any one of them the others allow it. Each certificate is what the search finds on the ground
//! tree of just those axioms, so it is the one that `check` prints for the model of just those axioms.
//!
//! What grounds and searches is a `FrontSearch`, such as `search_trait::Solver`. `specs/Chosen.antt` says what some of
//! the axioms are, `specs/ModelWith.antt` what the model with some of its axioms is, and `specs/Cores.antt` what a core
//! is.
#![tactic(auto)]

mod answer;
mod chosen;
mod cores;
mod judged;
mod laws;
mod members;
mod shrinking;

pub use answer::{AxiomNumbers, Core, Shown};
pub use cores::core;
pub use laws::{model_with_is_faultless, model_with_says_its_axioms};
