ghost use Rattle.std.specs.Prelude.{◌≡◌, ◌<◌, ◌^◌, ◌↔◌, IsTrue, length};
ghost use Rattle.pc_common.specs.World.{Node};
ghost use Rattle.pc_ground.specs.Tree.{Tree, never};
ghost use Rattle.pc_ground.specs.Rows.{rows_of};

use pc_ground::{Flat, RowKind};

/// Does nothing. It shows that a tree has a root, and how many positions at most.
pub(crate) fn show_size(tree: &Flat)
    ensures root { 0 < length tree.now }
    ensures bound { length tree.now < 2 ^ 63 }
{
    tree.len();
}

/// Whether the whole tree is False. Takes no memory.
pub(crate) fn is_false(tree: &Flat) -> bool
    ensures { (t : Tree Node) → tree.now ≡ rows_of t → IsTrue result ↔ (t ≡ never) }
{
    show_size(tree);
    match tree.row(0).kind {
        RowKind::False => true,
        _ => false,
    }
}
