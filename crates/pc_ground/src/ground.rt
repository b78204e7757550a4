ghost use Rattle.std.specs.Prelude.{◌≡◌, IfOk};
ghost use Rattle.pc_ground.specs.Keys.{literal_node};
ghost use Rattle.pc_ground.specs.PlainGround.{plain_ground, ground_literal, negated, ground_conjoined, ground_disjoined};

use super::literal::Literal;
use super::node_key::NodeKey;
use pc_common::Memory;
use std::alloc::Global;

/// A formula over literals, with no quantifier, predicate or name.
///
/// Its drop loops on the right side, and nests a call only for a left side.
pub enum Ground {
    True,
    False,
    Lit(Literal<NodeKey>),
    Not(Box<Ground>),
    And(Box<Ground>, Box<Ground>),
    Or(Box<Ground>, Box<Ground>),
}

impl Drop for Ground {
    fn drop(mut self) {
        loop {
            match self {
                Ground::True | Ground::False | Ground::Lit(_) => return,
                Ground::Not(body) => self = Box::into_inner(body),
                Ground::And(_, rest) => self = Box::into_inner(rest),
                Ground::Or(_, rest) => self = Box::into_inner(rest),
            }
        }
    }
}

/// The makers fold constants, so that none stands below a connective that they make. Where memory is
/// refused, what was handed over is gone.
impl Ground {
    /// `~ body`.
    pub fn negation(alloc: Global, body: Ground) -> Result<Ground, Memory>
        ensures { IfOk result (λ g. plain_ground g ≡ negated (plain_ground body)) }
    {
        match &body {
            Ground::True => Ok(Ground::False),
            Ground::False => Ok(Ground::True),
            _ => Ok(Ground::Not(Box::new(alloc, body)?)),
        }
    }

    /// `left /\ right`.
    pub fn conjunction(alloc: Global, left: Ground, right: Ground) -> Result<Ground, Memory>
        ensures { IfOk result (λ g. plain_ground g ≡ ground_conjoined (plain_ground left) (plain_ground right)) }
    {
        match (&left, &right) {
            (Ground::True, _) => Ok(right),
            (Ground::False, _) => Ok(Ground::False),
            (_, Ground::True) => Ok(left),
            (_, Ground::False) => Ok(Ground::False),
            _ => Ok(Ground::And(Box::new(alloc, left)?, Box::new(alloc, right)?)),
        }
    }

    /// `left \/ right`.
    pub fn disjunction(alloc: Global, left: Ground, right: Ground) -> Result<Ground, Memory>
        ensures { IfOk result (λ g. plain_ground g ≡ ground_disjoined (plain_ground left) (plain_ground right)) }
    {
        match (&left, &right) {
            (Ground::False, _) => Ok(right),
            (Ground::True, _) => Ok(Ground::True),
            (_, Ground::False) => Ok(left),
            (_, Ground::True) => Ok(Ground::True),
            _ => Ok(Ground::Or(Box::new(alloc, left)?, Box::new(alloc, right)?)),
        }
    }
}
