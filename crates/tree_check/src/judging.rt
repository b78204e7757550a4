ghost use Rattle.std.specs.Prelude.{◌≡◌, IsTrue, IfOk, length};
ghost use Rattle.pc_common.specs.World.{Node};
ghost use Rattle.pc_ground.specs.Tree.{Tree};
ghost use Rattle.pc_ground.specs.Rows.{rows_of};
ghost use Rattle.pc_ground.specs.Refutes.{IsRefutation};
ghost use Rattle.refutation.specs.Kept.{kept};
ghost use Rattle.tree_check.specs.OpenBranches.{StandsAtRoot};

use super::branches::Branches;
use pc_common::Memory;
use pc_ground::{Flat, Version};
use refutation::Refutation;
use std::alloc::Global;

/// The one branch of the tree, whose steps are read as those of this version.
fn begin<'a>(alloc: Global, tree: &'a Flat, version: Version) -> Result<Branches<'a>, Memory>
    ensures { IfOk result (StandsAtRoot version tree.now) }
{
    let mut branches = Branches::new(alloc, tree)?;
    match version {
        Version::One => Ok(branches),
        Version::Two => {
            branches.begin_two();
            Ok(branches)
        }
    }
}

/// Whether the steps that stay are a refutation of the tree.
pub(crate) fn is_refutation(
    alloc: Global,
    tree: &Flat,
    version: Version,
    steps: &Refutation,
    stays: &[bool],
) -> Result<bool, Memory>
    requires { length stays.now ≡ length steps.now }
    ensures { IfOk result (λ good. IsTrue good → (t : Tree Node) → tree.now ≡ rows_of t
        → IsRefutation version t (kept stays.now steps.now)) }
{
    let mut branches = begin(alloc, tree, version)?;
    for k in 0..steps.len() {
        let step = steps.step(k);
        if stays[k] && !branches.take(step.kind())? {
            return Ok(false);
        }
    }
    Ok(branches.is_closed())
}
