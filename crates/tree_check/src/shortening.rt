ghost use Rattle.std.specs.Prelude.{◌≡◌, ◌≤◌, IfOk, length};
ghost use Rattle.pc_common.specs.World.{Node};
ghost use Rattle.pc_ground.specs.Tree.{Tree};
ghost use Rattle.pc_ground.specs.Rows.{rows_of};
ghost use Rattle.pc_ground.specs.Refutes.{IsRefutation};
ghost use Rattle.tree_check.specs.Subsequences.{IsSubsequence};

use super::flags::flags_of;
use super::judging::is_refutation;
use pc_common::Memory;
use pc_ground::{Flat, Version};
use refutation::Refutation;
use std::alloc::Global;

/// A refutation of the tree in this version, from the one that is given: it leaves out each split one of whose sides is
/// closed without it, with the other side.
///
/// Returns `Memory` where memory is refused. Where nothing is left out, the answer is the refutation as it was given.
pub fn shorten(
    alloc: Global,
    tree: &Flat,
    version: Version,
    refutation: Refutation,
) -> Result<Refutation, Memory>
    requires { (t : Tree Node) → tree.now ≡ rows_of t → IsRefutation version t refutation }
    ensures refutes { IfOk result (λ short. (t : Tree Node) → tree.now ≡ rows_of t → IsRefutation version t short) }
    ensures steps { IfOk result (λ short. IsSubsequence short refutation) }
    ensures count { IfOk result (λ short. length short ≤ length refutation) }
{
    if refutation.cuts().is_empty() {
        return Ok(refutation);
    }
    let stays = flags_of(alloc, &refutation)?;
    if is_refutation(alloc, tree, version, &refutation, stays.as_slice())? {
        let short = refutation.keep(alloc, stays.as_slice())?;
        Ok(short)
    } else {
        Ok(refutation)
    }
}
