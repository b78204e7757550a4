//! The ground floor: places and faults of files, lists, the outside world as two traits, reading and writing whole, and
//! how many cores and micro-ops there may be. One kind of list has copies that share their items, and a room of 4,096
//! bytes stands in front of a sink. `specs/` has what all layers speak of: case, node, world, chain, certificate lines.
//!
//! Clause: `read_all` returns what a modelled file holds, within a limit (`whole`, `within`); `write_all` and a `Room`
//! lose nothing and repeat nothing (`Writes`, `Puts`).
//!
//! ```rust
//! use pc_common::{Calls, MemSink, Place, line_col, write_all};
//!
//! let text = b"ab\ncd\n".as_slice();
//! assert!(rt; line_col(text, Place { offset: 3 }) == (2, 1));
//! let mut sink = MemSink::new(alloc, 64, Calls::new(alloc))?;
//! assert!(rt; write_all(&mut sink, text).is_ok() && sink.taken() == text);
//! ```
//!
//! Its `specs/` hold what every layer above speaks of as plain data: a case (what a litmus test says),
//! what an address holds, a node, a world (things with a strict order), chains of edges, the world that
//! a graph generates, the lines of a certificate, and what a call keeps of a sink (`Writes`), of a room
//! (`Puts`, `Flushes`) and of files (`Reads`).
#![tactic(auto)]

mod failed;
mod fault;
mod files;
mod held;
mod laws;
mod limits;
mod line_column;
mod listed;
mod mem_files;
mod mem_sink;
mod memory;
mod place;
mod reading;
mod room;
mod schedule;
mod shared;
mod shelf;
mod sink;
mod status;
mod sure_files;
mod sure_sink;
mod value;
mod waiting;
mod writing;

pub use failed::Failed;
pub use fault::{FaultKind, InputFault, Which};
pub use files::Files;
pub use held::{Held, HeldFile};
pub use laws::limits_are;
pub use limits::{MAX_CERTIFICATE, MAX_CORE, MAX_NODES, MAX_OPS};
pub use line_column::line_col;
pub use listed::Listed;
pub use mem_files::MemFiles;
pub use mem_sink::MemSink;
pub use memory::Memory;
pub use place::Place;
pub use reading::{ReadEnd, read_all};
pub use room::Room;
pub use schedule::Calls;
pub use shared::Shared;
pub use sink::Sink;
pub use status::Status;
pub use sure_files::SureFiles;
pub use sure_sink::SureSink;
pub use value::Value;
pub use writing::write_all;

/// A list of bytes.
pub type Bytes = Listed<u8>;
