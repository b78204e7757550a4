//! The normal form of a ground formula: negations stand only at literals, constants are folded, and the
//! tree is written as flat rows in preorder. Here too its nodes get their numbers.
//!
//! Clause: `normalise` returns the rows of a formula's normal form, and `number` its nodes by first sight (their
//! clauses).
//!
//! ```rust
//! let node = NodeKey { op: 0, core: 0, stage: 5 };
//! let ground = Ground::negation(alloc, Ground::Lit(Literal::Node(node)))?;
//! let tree = normalise(alloc, &ground)?;
//! assert!(rt; tree.len() == 1 && matches!(tree.row(0).kind, RowKind::Lit(Literal::NoNode(_))));
//! assert!(rt; number(alloc, &tree)?.number(node) == Some(0));
//! ```
//!
//! Both take time and memory in proportion to the formula. No call nests as deep as a formula to the
//! right or a chain of negations; to the left one nests for each connective.
#![tactic(auto)]

mod joint;
mod normal;
mod numbers;
mod part;
mod rows;
mod spine;

pub use normal::normalise;
pub use numbers::number;
