//! What slots and arguments of a closed formula stand for, and whether a predicate holds of them. The walks over
//! closed formulas use it.
//!
//! Clause: `holds` returns what the table of predicates says (its clause).
//!
//! ```rust
//! // the case's second micro-op is a read
//! let args = ClosedArgs::from_vec(vec![in alloc; ClosedArg::Slot(0)]?);
//! let mut env = Env::new();
//! env.push(Bound::Op(1));
//! assert!(rt; holds(&case, Pred::IsAnyRead, &args, &env));
//! ```
//!
//! `holds` takes a case, a predicate, its closed arguments and what their slots stand for, and returns
//! the predicate's row in the table of `pc_syntax`. What is asked of addresses or values is false of a
//! fence, which has neither.
//!
//! Walks over closed formulas share the rest: what a slot stands for, the slots inside a quantifier or a
//! binding, the values that a quantifier ranges over, and the node that a term names. Nothing here takes
//! memory or refuses.
#![tactic(auto)]

mod entry;
mod given;
mod node;
mod range;
mod slots;
mod table;

pub use node::node_key;
pub use range::{range_len, value_in_range};
pub use slots::{bind_next, copy_of, core_in_slot, op_in_slot, with_values};
pub use table::holds;
