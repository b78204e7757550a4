//! A graph over numbered nodes that holds a list of literals: nodes and edges, asserted or denied.
//!
//! Clause: `assert_literal` adds a literal, or returns a clash exactly where the list would be inconsistent (`added`,
//! `err`).
//!
//! ```rust
//! // `steps` counts in the caller's ledger
//! let mut graph = OrderGraph::new(alloc, 2)?;
//! graph.assert_literal(Literal::Edge(0, 1), &mut steps)?;
//! assert!(rt; graph.reaches(0, 1) && graph.would_clash(Literal::Edge(1, 0)));
//! let added = graph.assert_literal(Literal::NoNode(1), &mut steps)?;
//! assert!(rt; matches!(added, Added::Clash(Clash::Absent(1))));
//! ```
//!
//! The literals are consistent: no node has a chain of asserted edges to itself, no denied pair is joined by
//! a chain, and no denied node is present. A literal that would break this is refused with a clash, which
//! tells the cycle, the path or the node. Marks and `undo` go back to earlier literals, exactly.
//!
//! What chains reach is kept closed in bit rows of an undo table: an edge joins the row of its second end
//! into the rows of all nodes that reach its first (Italiano 1986, with rows in place of trees).
#![tactic(auto)]

mod chain;
mod clash;
mod clashes;
mod counts;
mod graph;
mod laws;
mod mark;
mod rows;

pub use clash::{Added, Clash, Numbers};
pub use graph::OrderGraph;
pub use laws::{clashes_refute_consistency, consistent_literals_generate_a_world};
pub use mark::Mark;
pub use undo_trail::Steps;
