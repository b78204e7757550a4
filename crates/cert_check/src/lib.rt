//! An independent check of certificates: it judges any text against a model and a test, whoever made it.
//!
//! Clause: `Checker` and `check_text` return the verdict whose certificate a text is, or its refused line, and
//! `GraphChecker` does so without a ground tree of a text that is no refutation (`verified`, `outcome`; the clause of
//! `finish`); `check_one` does so by the rules of version 1, with a refutation's steps (`is`, `only`).
//!
//! ```rust
//! use pc_front::front;
//!
//! let model = b"StageName 0 \"S\". Axiom \"x\": forall microop \"i\", NodeExists (i, S).";
//! let front = front(alloc, model, b"Litmus \"o\". Microop 0 0 0 0 (Fence).")?;
//! let text = b"observable\ntest unstated\nnode 0.0@0:S\nend\n";
//! assert!(rt; check_text(alloc, &front, text)? == Checked::Observable);
//! assert!(rt; check_text(alloc, &front, b"")? == Checked::Refused(1));
//! ```
//!
//! A certificate is a graph whose world makes every axiom true, or a refutation of the ground tree, of version 1
//! or, where its third line says so, of version 2; the lines are those of docs/certificates.md, and
//! `specs/Certificates.antt` states what each has to be. `Checker` takes a text in pieces and judges each line when
//! it is whole; `check_text` takes a whole text. The answer is the verdict, or the first line with
//! which no certificate can continue; and what it says of the outcome holds. `check_one` judges a whole text by the rules
//! of version 1 alone, and gives the steps of a refutation. `GraphChecker` takes a text whose first line is not
//! `unobservable`: it needs the parts of a front alone, so that no ground tree is built for it.
//!
//! The check shares neither the search nor its graph: a graph is judged by `graph_check`, which evaluates the
//! closed axioms, and a refutation by `tree_check`, step by step.
#![tactic(auto)]

mod checked;
mod checker;
mod graph_checker;
mod header;
mod judge;
mod next;
mod one;
mod open_tree;
mod stage;
mod steps;
mod subject;

pub use checked::Checked;
pub use checker::{Checker, check_text};
pub use graph_checker::GraphChecker;
pub use header::{Verdict, second_line, verdict_line};
pub use one::{One, check_one};
