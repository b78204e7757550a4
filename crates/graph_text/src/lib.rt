//! Graphs as node and edge lines: what shows that a world satisfies a model.
//!
//! Clause: node and edge lines are written as the format says, exactly such lines are read, and what was written is
//! read again (`read`, `again`).
//!
//! ```rust
//! // the test has the micro-ops 0.0 and 1.0, the model the stage S, and `sink` is empty
//! let names = NodeText::of(&front);
//! let body = b"node 0.0@0:S\nnode 1.0@0:S\nedge 0.0@0:S 1.0@0:S\n".as_slice();
//! let graph = read_graph(alloc, &names, body)?;
//! assert!(rt; graph.nodes.len() == 2 && graph.edges.len() == 1);
//! assert!(rt; write_graph(&mut sink, &names, &graph).is_ok() && sink.taken() == body);
//! ```
//!
//! A graph stands for the world that it generates: its nodes, with all pairs that a chain of its edges
//! joins. The lines are those of docs/certificates.md. They are written, and read back, whole or one by one.
#![tactic(auto)]

mod graph;
mod graph_fault;
mod graph_line;
mod graph_reading;
mod open_graph;
mod reading;
mod writing;

pub use graph::{Edges, Graph, Nodes};
pub use graph_fault::GraphFault;
pub use graph_line::GraphLine;
pub use graph_reading::read_graph;
pub use open_graph::OpenGraph;
pub use reading::read_graph_line;
pub use writing::write_graph;
