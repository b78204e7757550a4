ghost use Rattle.std.specs.Prelude.{◌≡◌, ◌+◌};
ghost use Rattle.pc_common.specs.World.{Node};
ghost use Rattle.pc_ground.specs.Rows.{IsPart};
ghost use Rattle.pc_ground.specs.Tree.{Tree, size_of};

use pc_ground::Flat;

/// Where the right child of the And or the Or at this position stands, whose left child is after it. Takes no memory.
pub(crate) fn right_of(tree: &Flat, at: usize) -> usize
    requires { (a : Tree Node) × IsPart tree.now (at + 1) a }
    ensures { (a : Tree Node) → IsPart tree.now (at + 1) a → result ≡ at + 1 + size_of a }
{
    tree.len();
    let left = at + 1;
    left + tree.row(left).skip
}
