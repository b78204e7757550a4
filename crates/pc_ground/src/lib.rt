//! The ground tree: what a model says of one test, with no quantifier and no name left in it.
//!
//! Clause: a `Front` keeps the ground tree of its axioms in its case (`grounded` of the type); a `NodeText` reads and
//! writes the text of a node (`read`, `again`).
//!
//! ```rust
//! // the front of a model with stage 5, `S`, and of a test whose first micro-op is 7.0
//! let names = NodeText::of(&front);
//! assert!(rt; names.read(b"7.0@1:S") == Ok(NodeKey { op: 0, core: 1, stage: 5 }));
//! assert!(rt; names.read(b"7.0@64:S") == Err(LineFault::Foreign));
//! ```
//!
//! A model's axioms in a case become a tree of And and Or over literals (a node or an edge, asserted
//! or denied). `specs/` say which tree that is, what its truth in a world is, how it is written as flat
//! rows in preorder, in which order its nodes are numbered, when a list of literals is consistent, and
//! what a refutation of the tree is. Search and checker stand on this crate and not on each other.
//!
//! A `Front` is what both files say, down to its tree and the numbers of its nodes. `NodeText` writes a
//! node of it as text and reads it back. `laws` join the layers: they say which definitions keep truth.
#![tactic(auto)]

mod decimal;
mod flat;
mod front;
mod ground;
mod laws;
mod line_fault;
mod line_part;
mod literal;
mod node_key;
mod node_text;
mod node_words;
mod numbering;
mod parts;
mod row;
mod stage;
mod version;

pub use decimal::decimal_value;
pub use flat::Flat;
pub use front::Front;
pub use ground::Ground;
pub use laws::{
    cut_is_world, negation_turns, nodes_are_named, normal_is_folded, normal_of_simplified,
    numbered_lists_nodes, one_has_no_sign, refutation_is_sound, rows_spell_one_tree, tree_is_kept,
    tree_says_closed, tree_says_model, truth_is_of_literals, walk_is_asserted,
};
pub use line_fault::LineFault;
pub use line_part::{LinePart, put_line_parts};
pub use literal::Literal;
pub use node_key::NodeKey;
pub use node_text::NodeText;
pub use numbering::Numbering;
pub use parts::Parts;
pub use row::{Row, RowKind};
pub use stage::{Axioms, Stage, Stages, copy_stages};
pub use version::Version;
