ghost use Rattle.std.specs.Prelude.{◌≡◌, IfOk};
ghost use Rattle.pc_common.specs.World.{Node as PlainNode};
ghost use Rattle.pc_ground.specs.Tree.{Tree};
ghost use Rattle.pc_ground.specs.Rows.{rows_of};
ghost use Rattle.pc_ground.specs.Folded.{IsFolded};
ghost use Rattle.pc_ground.specs.Numbers.{numbered};
ghost use Rattle.solver.specs.Answers.{IsAnswer};

use crate::search::answer::Answer;
use crate::search::{Search, Turn};
use pc_common::Memory;
use pc_ground::{Flat, Numbering, Version};
use std::alloc::Global;
use std::sync::ledger::Ledger;
use undo_trail::Steps;

/// Whether some world satisfies the tree: a graph that generates one, or a refutation of this version.
///
/// The numbering lists the tree's nodes, and a constant stands in the tree only where it is the whole tree.
/// Returns `Memory` where memory is refused that the answer needs. How many turns the search takes has no bound but the
/// tree's.
pub fn solve<L: Ledger>(
    alloc: Global,
    tree: &Flat,
    numbering: &Numbering,
    version: Version,
    steps: &mut Steps<L>,
) -> Result<Answer, Memory>
    requires numbered { (t : Tree PlainNode) → tree.now ≡ rows_of t → numbering.now ≡ numbered t }
    requires folded { (t : Tree PlainNode) → tree.now ≡ rows_of t → IsFolded t }
    ensures { IfOk result (λ answer.
        (t : Tree PlainNode) → tree.now ≡ rows_of t → IsAnswer version numbering.now t answer) }
{
    let mut turn = Search::begin(alloc, tree, numbering, version, steps)?;
    loop {
        match turn {
            Turn::Done(answer) => return Ok(answer),
            Turn::More(search) => turn = search.turn(steps)?,
        }
    }
}
