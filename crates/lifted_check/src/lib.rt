//! An independent check of lifted refutations: it judges any text against a test and closed axioms, whoever made it.
//!
//! Clause: `check_lifted` returns that a text is a lifted refutation, or its refused line (`found`, `outcome`).
//!
//! ```rust
//! use pc_front::read_parts;
//!
//! let parts = read_parts(alloc, b"Axiom \"x\": exists microop \"i\", True.", b"Litmus \"e\".")?;
//! let axioms = parts.axioms.as_slice();
//! let text = b"unobservable\ntest unstated\nlifted\nfalse 0\nend\n";
//! assert!(rt; check_lifted(alloc, &parts.case, axioms, text)? == Lifted::Unobservable);
//! assert!(rt; check_lifted(alloc, &parts.case, axioms, b"")? == Lifted::Refused(1));
//! ```
//!
//! A lifted refutation speaks of the axioms themselves: it instantiates, takes a side, splits. The check has neither a
//! ground tree nor its normal form. `LiftedChecker` takes a text in pieces and judges each line when it is whole;
//! `check_lifted` takes a whole text. The answer is that the text is a lifted refutation, so that no world makes every
//! axiom true, or the first line that no lifted refutation goes on with.
//!
//! `specs/StepLines.antt` says what the line of each step is, `specs/LiftedTexts.antt` what a whole text is, and
//! `lifted_facts` what its steps are.
#![tactic(auto)]

mod checker;
mod header;
mod judge;
mod keyword;
mod lifted;
mod next;
mod numbers;
mod stage;
mod step;
mod value;
mod words;

pub use checker::{LiftedChecker, check_lifted};
pub use lifted::Lifted;
