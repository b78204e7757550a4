//! A checker of refutations of a ground tree, step by step; and refutations without the splits that they do not need.
//!
//! Clause: a step of a refutation, of either version, is taken exactly where its condition holds (the clause of
//! `take`); `shorten` returns a refutation of the same tree and version: the given one without some of its steps
//! (`refutes`, `steps`, `count`).
//!
//! ```rust
//! use normal_form::normalise;
//! use refutation::{Kind, Leaf};
//!
//! let tree = normalise(alloc, &Ground::False)?;
//! let mut branches = Branches::new(alloc, &tree)?;
//! assert!(rt; !branches.is_closed());
//! assert!(rt; branches.take(Kind::Close(Leaf::False))? && branches.is_closed());
//!
//! // `refutation` is one of the tree, of version 1
//! let count = refutation.len();
//! let short = shorten(alloc, &tree, Version::One, refutation)?;
//! assert!(rt; short.len() <= count);
//! ```
//!
//! `Branches` keeps the branches that the steps so far leave open. A step puts the two sides of an asserted
//! Or in the first branch's place, or closes that branch by a leaf; the answer says whether the step's
//! condition holds there. It stands on the definition of a refutation and its steps, and on nothing of the search.
//!
//! `branches.rt` takes a step: `children.rt` finds the sides of a split, `entering.rt` adds what a side asserts to
//! the facts in `facts.rt`, and `closing.rt` judges a leaf. `shortening.rt` leaves out by the flags of `flags.rt`, and
//! asks `judging.rt` whether what stays is a refutation.
//!
//! Refutations of version 1 and of version 2 are followed by one set of functions: a position under the sign
//! `~` is a position of the negated tree, whose rows are the tree's, turned one by one as they are read.
//!
//! Its memory is that of the tree, and one entry for each branch that waits, however many steps there are.
//!
//! A split is not needed where one of its sides is closed by literals that were asserted without it: the steps of that
//! side close the branch that was split. So `shorten` leaves it out, with all of its other side. The search learns
//! which splits these are, and notes them with the refutation (`cuts`). That is a guess, of which nothing is proved:
//! `Branches` follows the steps that stay, and where they do not close all branches, the refutation is returned as it
//! was given. Time and memory of `shorten` are in proportion to the refutation and the tree.
#![tactic(auto)]

mod branches;
mod children;
mod closing;
mod entering;
mod facts;
mod flags;
mod judging;
mod later;
mod laws;
mod root;
mod shortening;
mod side;

pub use branches::Branches;
pub use laws::{one_list_is_left, runs_are_joined};
pub use shortening::shorten;
