//! A case: all that a test says, in a type that keeps its conditions.
//!
//! Clause: a case keeps what its type lists of micro-ops, dependencies and stated values (`kept`, `once`, `within`);
//! its readers return them (`op`, `value`).
//!
//! ```rust
//! let id = OpId { g: 7, n: 0 };
//! let types = TypeNames::new(alloc);
//! let mut ops = Ops::new(alloc);
//! ops.push(Op { id, core: 1, thread: 0, types, access: Access::Fence, memop: None })?;
//! let none = Dependencies::new(alloc);
//! let (initial, last) = (StatedValues::new(alloc), StatedValues::new(alloc));
//! let case = Case::new(alloc, ops, none, initial, last, Expect::Permitted)?;
//! assert!(rt; case.find(id) == Some(0) && case.cores() == 2);
//! ```
//!
//! It takes lists in test order (micro-ops, dependencies, stated initial and final values) and the
//! expectation, and answers by place, by address, by kind and by name. Addresses, kinds and type names
//! are looked up by hash, so that no question about them walks the test; of a kind or a type name of more than 15
//! bytes the length is looked up first, so that it is read only where the test has one as long. The
//! readers take no memory.
//! A physical address is a page or the page-table entry of a virtual tag, and a value is a number or
//! such an entry.
//!
//! The type keeps that there are at most 64 micro-ops, no two with one (g, n), on cores 0 to 63, that
//! fences alone have no address and no value, that a dependency goes between micro-ops of the case,
//! and that no address has two initial or two final values.
#![tactic(auto)]

mod address;
mod case;
mod dependency;
mod long_names;
mod name_set;
mod op;
mod stated;
mod type_names;

pub use address::{Address, Page};
pub use case::{Case, Expect, Ops};
pub use dependency::{Dependencies, Dependency};
pub use op::{Access, Memop, Op, OpId};
pub use stated::{Stated, StatedValues};
pub use type_names::TypeNames;
