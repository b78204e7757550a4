ghost use Rattle.std.specs.Prelude.{◌<◌, ◌+◌, IfOk};
ghost use Rattle.solver.specs.Spelled.{spelled};
ghost use Rattle.solver.specs.Branches.{branches_of};
ghost use Rattle.solver.specs.Searched.{HasCandidate};
ghost use Rattle.solver.specs.Weights.{weight};
ghost use Rattle.solver.specs.Descents.{HasMore};
ghost use Rattle.solver.specs.Statuses.{IsStatus, status_weight};

use super::branch::Branch;
use super::choose::choose;
use super::find::{SearchStatus, find};
use super::later::Later;
use crate::tree::numbered_tree::NumberedTree;
use crate::tree::ors::sides;
use crate::tree::place::Place;
use pc_common::Memory;
use pc_ground::Version;
use std::alloc::Global;
use std::sync::ledger::Ledger;
use undo_trail::Steps;

/// Splits a candidate and goes on with its left side, while the right side waits. `first` is the first one.
#[tactic(auto, using(crate::proofs::HasDescended::one_open))]
pub(crate) fn advance<L: Ledger>(
    alloc: Global,
    tree: &NumberedTree,
    version: Version,
    first: Place,
    branch: &mut Branch,
    steps: &mut Steps<L>,
) -> Result<SearchStatus, Memory>
    requires { HasCandidate version tree.now branch.old first }
    ensures found { IfOk result (IsStatus version tree.now branch.new) }
    ensures lighter { IfOk result (λ found. status_weight tree.now branch.new found
        < 1 + weight (spelled tree.now.rows) (branches_of tree.now branch.old)) }
    ensures longer { IfOk result (λ _. HasMore branch.old.refutation branch.new.refutation) }
{
    let step = branch.refutation.len();
    let mark = branch.graph.mark();
    let place = choose(alloc, tree, version, first, mark, branch, steps)?;
    let (left, side) = sides(tree, version, place);
    let count = branch.asserted.len();
    branch.later.push(Later { count, mark, side })?;
    branch
        .refutation
        .push_split(place.negated, place.position as u64)?;
    branch
        .agenda
        .split(alloc, tree, version, place, &branch.graph, step)?;
    find(alloc, tree, version, left, branch, steps)
}
