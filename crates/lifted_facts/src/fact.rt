use pc_ground::NodeKey;
use pc_syntax::{ClosedFormula, Env};

/// A part of an axiom, said to hold or to be false.
#[derive(Drop)]
pub struct Said<'a> {
    /// Whether it is said to hold.
    pub plus: bool,
    pub formula: &'a ClosedFormula,
    /// What its slots stand for.
    pub env: Env,
    /// The place in its range or list from which on it is meant, where one of several members is said to hold;
    /// else 0.
    pub start: usize,
}

/// What is known on a branch.
#[derive(Drop)]
pub enum Fact<'a> {
    Said(Said<'a>),
    /// One node, which is there or is not.
    Node {
        plus: bool,
        node: NodeKey,
    },
    /// One edge: the first node happens before the second, or does not.
    Edge {
        plus: bool,
        from: NodeKey,
        to: NodeKey,
    },
}
