ghost use Rattle.std.specs.Prelude.{◌≡◌, IfOk};
ghost use Rattle.pc_ground.specs.Stages.{plain_axioms};
ghost use Rattle.pc_ground.specs.Rows.{rows_of};
ghost use Rattle.pc_ground.specs.Numbers.{numbered};
ghost use Rattle.pc_ground.specs.GroundTree.{closed_ground_tree};

use super::grounding::ground;
use normal_form::{normalise, number};
use pc_case::Case;
use pc_common::Memory;
use pc_ground::{Axioms, Flat, Numbering};
use std::alloc::Global;

/// The ground tree of closed axioms in a case, and the numbers of its nodes.
pub(crate) fn grounded(
    alloc: Global,
    case: &Case,
    axioms: &Axioms,
) -> Result<(Flat, Numbering), Memory>
    ensures tree { let t = closed_ground_tree case.now (plain_axioms axioms.now) in
        IfOk result (λ made. made.0 ≡ rows_of t) }
    ensures numbered { let t = closed_ground_tree case.now (plain_axioms axioms.now) in
        IfOk result (λ made. made.1 ≡ numbered t) }
{
    let tree = tree_of(alloc, case, axioms)?;
    let numbering = number(alloc, &tree)?;
    Ok((tree, numbering))
}

/// The ground tree of closed axioms in a case.
fn tree_of(alloc: Global, case: &Case, axioms: &Axioms) -> Result<Flat, Memory>
    ensures { IfOk result (λ t. t ≡ rows_of (closed_ground_tree case.now (plain_axioms axioms.now))) }
{
    let ground = ground(alloc, case, axioms.as_slice())?;
    normalise(alloc, &ground)
}
