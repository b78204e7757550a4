ghost use Rattle.std.specs.Prelude.{◌≡◌, IfOk};
ghost use Rattle.pc_common.specs.World.{Node};
ghost use Rattle.pc_ground.specs.Tree.{Tree};
ghost use Rattle.pc_ground.specs.Rows.{rows_of};
ghost use Rattle.solver.specs.Answers.{IsAnswer};

use pc_common::Memory;
use pc_ground::{Front, Version};
use solver::Answer;
use std::alloc::Global;
use tree_check::shorten;

/// What was found of a front: the same graph, or a refutation without the splits that it does not need. The one error is
/// that memory was refused.
pub fn shorten_found(
    alloc: Global,
    front: &Front,
    version: Version,
    found: Answer,
) -> Result<Answer, Memory>
    requires { (t : Tree Node) → front.now.tree ≡ rows_of t → IsAnswer version front.now.numbering t found }
    ensures { IfOk result (λ short. (t : Tree Node) → front.now.tree ≡ rows_of t
        → IsAnswer version front.now.numbering t short) }
{
    match found {
        Answer::Observable(graph) => Ok(Answer::Observable(graph)),
        Answer::Unobservable(steps) => {
            let short = shorten(alloc, &front.tree, version, steps)?;
            Ok(Answer::Unobservable(short))
        }
    }
}
