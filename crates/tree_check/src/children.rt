ghost use Rattle.std.specs.Prelude.{◌≡◌, ◌<◌, IfSome, MatchOption, length};
ghost use Rattle.pc_common.specs.World.{Node};
ghost use Rattle.pc_ground.specs.Tree.{Tree};
ghost use Rattle.pc_ground.specs.Rows.{rows_of};
ghost use Rattle.pc_ground.specs.Refutes.{Branch, IsSplit};
ghost use Rattle.tree_check.specs.Facts.{HasFacts};
ghost use Rattle.tree_check.specs.OpenBranches.{AreSides};

use super::facts::Facts;
use pc_ground::{Flat, RowKind};
use refutation::BranchFact;

/// Where the children of the Or at `position` stand, the left one first; None where no Or is asserted there. Under
/// the sign `~` an And of the tree is an Or. One look-up; takes no memory.
pub(crate) fn children(
    tree: &Flat,
    facts: &Facts,
    negated: bool,
    position: usize,
) -> Option<(usize, usize)>
    ensures inside { IfSome result (λ r. (r.0 < length tree.now) × (r.1 < length tree.now)) }
    ensures sides { (t : Tree Node) (ps : Branch) → tree.now ≡ rows_of t → HasFacts t facts.now ps
        → MatchOption result ((a b : Tree Node) → IsSplit t ps negated position a b → ⊥)
        (λ r. AreSides t ps negated position r.0 r.1) }
{
    if position >= tree.len() {
        return None;
    }
    if !facts.has(BranchFact::At(negated, position)) {
        return None;
    }
    match tree.row(position).negate_if(negated).kind {
        RowKind::Or => {
            let left = position + 1;
            let right = left + tree.row(left).skip;
            Some((left, right))
        }
        _ => None,
    }
}
