//! Judging a graph: whether the pair that it generates is a world in which each closed axiom is true.
//!
//! Clause: `check_graph` returns true exactly where a graph generates a world in which the closed axioms are true (its
//! clause).
//!
//! ```rust
//! use graph_text::read_graph;
//! use pc_front::front;
//!
//! let model = b"StageName 0 \"S\". Axiom \"x\": forall microop \"i\", NodeExists (i, S).";
//! let front = front(alloc, model, b"Litmus \"o\". Microop 0 0 0 0 (Fence).")?;
//! let names = NodeText::of(&front);
//! let graph = read_graph(alloc, &names, b"node 0.0@0:S\n")?;
//! assert!(rt; check_graph(alloc, &front, &graph)?);
//! assert!(rt; !check_graph(alloc, &front, &read_graph(alloc, &names, b"")?)?);
//! ```
//!
//! `check_graph` and `check_graph_of` find the order that the graph's edges generate and work out the closed
//! axioms in it, one by one. They read a test and axioms, and neither a ground tree nor its node numbers.
//!
//! That the edges have no cycle is found by one walk along them, depth first (Tarjan 1972), which puts each node
//! after those that its edges lead to. What leads to a node is then worked out in that order, for the nodes that
//! the axioms ask for.
#![tactic(auto)]

mod adjacency;
mod check;
mod columns;
mod order;
mod search;
mod truth;

pub use check::{check_graph, check_graph_of};
