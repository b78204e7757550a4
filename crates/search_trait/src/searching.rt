ghost use Rattle.std.specs.Prelude.{◌≡◌, ◌<◌, IfOk};
ghost use Rattle.pc_common.specs.World.{Node};
ghost use Rattle.pc_ground.specs.Tree.{Tree};
ghost use Rattle.pc_ground.specs.Rows.{rows_of};
ghost use Rattle.solver.specs.Answers.{IsAnswer};

use pc_common::Memory;
use pc_ground::{Front, Version};
use solver::{Answer, solve};
use std::alloc::Global;
use std::marker::Brand;
use std::sync::ledger::{Blank, Ledger};
use undo_trail::Steps;

/// What the search finds of a front. The ledger is of this call alone: nobody reads its count of steps.
fn run_search<L: Ledger>(
    alloc: Global,
    front: &Front,
    version: Version,
    blank: Blank,
) -> Result<Answer, Memory>
    requires name { blank.name ≡ L.name }
    requires parts { blank.parts ≡ L.parts }
    requires whole { 0 < L.parts }
    ensures { IfOk result (λ found. (t : Tree Node) → front.now.tree ≡ rows_of t
        → IsAnswer version front.now.numbering t found) }
{
    let mut steps: Steps<L> = Steps::open(blank);
    solve(alloc, &front.tree, &front.numbering, version, &mut steps)
}

/// What the search finds of a front: a graph, or a refutation of this version. The one error is that memory was refused.
pub fn search_front(alloc: Global, front: &Front, version: Version) -> Result<Answer, Memory>
    ensures { IfOk result (λ found. (t : Tree Node) → front.now.tree ≡ rows_of t
        → IsAnswer version front.now.numbering t found) }
{
    run_search::<Brand>(alloc, front, version, Blank::new(1))
}
