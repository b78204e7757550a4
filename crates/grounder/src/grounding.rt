ghost use Rattle.std.specs.Prelude.{◌≡◌, IfOk};
ghost use Rattle.pc_ground.specs.PlainGround.{plain_ground, simplified, normal};
ghost use Rattle.pc_ground.specs.Stages.{plain_axioms};
ghost use Rattle.pc_ground.specs.GroundTree.{axioms_unfolded, closed_ground_tree};

use super::formula::ground_formula;
use super::operator::Operator;
use pc_case::Case;
use pc_common::Memory;
use pc_ground::Ground;
use pc_syntax::{Closed, Env};
use std::alloc::Global;

/// What the axioms say of the case together: And over them, ending in True, each unfolded, with
/// constants folded from the bottom up, so that one is left only where it is the whole.
///
/// Axioms are walked in their order, and none after one that is False. The walk nests a call for each
/// connective, quantifier and binding above an atom, which in a model without faults are at most 512.
/// The memory that it takes follows the largest part that is left after folding, and never the unfolded
/// axioms. The one error is that memory was refused.
pub fn ground(alloc: Global, case: &Case, axioms: &[Closed]) -> Result<Ground, Memory>
    ensures unfolded { IfOk result (λ g. plain_ground g
        ≡ simplified (axioms_unfolded case.now (plain_axioms axioms.now))) }
    ensures tree { IfOk result (λ g. normal (plain_ground g)
        ≡ closed_ground_tree case.now (plain_axioms axioms.now)) }
{
    let env = Env::new();
    let mut kept = Vec::new(alloc);
    for axiom in axioms {
        let member = ground_formula(alloc, case, &env, &axiom.body)?;
        if Operator::And.keep(&mut kept, member)? {
            return Ok(Ground::False);
        }
    }
    Operator::And.join_all(alloc, kept)
}
