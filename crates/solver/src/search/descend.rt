ghost use Rattle.std.specs.Prelude.{◌+◌, IfOk};
ghost use Rattle.solver.specs.Spelled.{spelled};
ghost use Rattle.solver.specs.Places.{side_positions, IsSideIn};
ghost use Rattle.solver.specs.Branches.{branches_with, HasOpenBranch};
ghost use Rattle.solver.specs.Weights.{weight};
ghost use Rattle.solver.specs.Descents.{HasDescended, IsLonger};

use super::branch::Branch;
use super::enter::{enter_next, go_back};
use super::leaf::close;
use crate::tree::numbered_tree::NumberedTree;
use crate::tree::side::Side;
use pc_common::Memory;
use pc_ground::Version;
use std::alloc::Global;
use std::sync::ledger::Ledger;
use undo_trail::Steps;

/// Enters the side on the first branch. Where its literals clash, a leaf closes the branch and
/// the next one that waits is entered, until a branch stays open (true) or none waits (false).
#[tactic(auto, using(crate::proofs::HasDescended::one_open))]
pub(crate) fn descend<L: Ledger>(
    alloc: Global,
    tree: &NumberedTree,
    version: Version,
    side: Side,
    branch: &mut Branch,
    steps: &mut Steps<L>,
) -> Result<bool, Memory>
    requires side { IsSideIn (spelled tree.now.rows) side }
    requires state { HasOpenBranch version tree.now branch.old (side_positions (spelled tree.now.rows) side) }
    ensures descended { IfOk result (HasDescended version tree.now
        (weight (spelled tree.now.rows)
        (branches_with tree.now branch.old (side_positions (spelled tree.now.rows) side)) + 1)
        branch.new) }
    ensures longer { IfOk result (λ _. IsLonger branch.old.refutation branch.new.refutation) }
{
    // for the proof alone: what the type of the tree keeps
    let _positions = tree.len();
    let mut side = side;
    while let Some(clash) = enter_next(tree, side, branch, steps)? {
        let end = branch.refutation.len().saturating_add(1);
        branch.agenda.learn(&clash, &branch.graph, end)?;
        close(alloc, tree, clash, &mut branch.refutation)?;
        let Some(next) = go_back(branch, steps) else {
            return Ok(false);
        };
        side = next;
    }
    Ok(true)
}
