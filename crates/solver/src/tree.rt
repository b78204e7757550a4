//! The tree of a search: its rows with numbers in the place of nodes, and the places and sides of its Ors.

pub(crate) mod numbered_tree;
pub(crate) mod numbers;
pub(crate) mod ors;
pub(crate) mod place;
pub(crate) mod rows;
pub(crate) mod side;
