ghost use Rattle.std.specs.Prelude.{◌≡◌, ◌<◌, ◌^◌, IfOk, Some, length, map, slice_get};
ghost use Rattle.pc_common.specs.World.{Node as PlainNode};
ghost use Rattle.pc_ground.specs.Keys.{key_node};
ghost use Rattle.pc_ground.specs.Tree.{Tree, size_of};
ghost use Rattle.pc_ground.specs.Rows.{rows_of};
ghost use Rattle.pc_ground.specs.Folded.{IsFolded};
ghost use Rattle.pc_ground.specs.Numbers.{numbered};
ghost use Rattle.solver.specs.Spelled.{spelled};
ghost use Rattle.solver.specs.Renamed.{tree_over, node_at};
ghost use Rattle.solver.specs.Numbered.{IsNumbered};

use super::numbers::{keys_by_number, number_rows};
use super::rows::row_at;
use pc_common::Memory;
use pc_ground::{Flat, NodeKey, Numbering, Row};
use std::alloc::Global;
use std::marker::Model;

/// The tree of a search: its rows with numbers in the place of nodes, and the nodes by their numbers. The
/// rows spell one tree, in which a constant stands only where it is the whole tree; the nodes are distinct,
/// and each number in a row is that of one.
pub(crate) struct NumberedTree {
    keys: Vec<NodeKey>,
    rows: Vec<Row<u32>>,
}

// By hand: docs/DECISIONS.md, "Drops are written by hand".
impl Drop for NumberedTree {
    fn drop(self) {
        let NumberedTree { keys: _, rows: _ } = self;
    }
}

impl Model for NumberedTree {
    ghost use Rattle.std.specs.Prelude.{map};
    ghost use Rattle.pc_ground.specs.Keys.{key_node};
    ghost use Rattle.solver.specs.Numbered.{Numbered, IsNumbered};

    ghost Value = { Numbered };

    ghost view = { λ s. record { nodes = map key_node s.keys.items; rows = s.rows.items } };

    ghost invariant = { λ s. IsNumbered (record { nodes = map key_node s.keys.items; rows = s.rows.items }) };
}

/// The key of a number.
#[tactic(auto, using(crate::proofs::ClashLeaf::key_is))]
fn key_at(keys: &[NodeKey], k: u32) -> NodeKey
    requires { k < length keys.now }
    ensures { key_node result ≡ node_at (map key_node keys.now) k }
{
    keys[k as usize]
}

impl NumberedTree {
    /// The tree over the numbers of its nodes.
    pub(crate) fn new(
        alloc: Global,
        tree: &Flat,
        numbering: &Numbering,
    ) -> Result<NumberedTree, Memory>
        requires numbered { (t : Tree PlainNode) → tree.now ≡ rows_of t → numbering.now ≡ numbered t }
        requires folded { (t : Tree PlainNode) → tree.now ≡ rows_of t → IsFolded t }
        ensures nodes { IfOk result (λ made. made.nodes ≡ numbering.now) }
        ensures tree { IfOk result (λ made.
            (t : Tree PlainNode) → tree.now ≡ rows_of t → tree_over made.nodes (spelled made.rows) ≡ t) }
    {
        // both for the proof alone: what the types of the tree and of its numbering keep
        let _positions = tree.len();
        let _count = numbering.len();
        let keys = keys_by_number(alloc, numbering)?;
        let rows = number_rows(alloc, tree, numbering)?;
        Ok(NumberedTree { keys, rows })
    }

    /// How many nodes there are.
    pub(crate) fn count(&self) -> u32
        ensures count { result ≡ length self.now.nodes }
        ensures numbered { IsNumbered self.now }
    {
        self.keys.len() as u32
    }

    /// The node of this number.
    pub(crate) fn key(&self, k: u32) -> NodeKey
        requires { k < length self.now.nodes }
        ensures { key_node result ≡ node_at self.now.nodes k }
    {
        key_at(&self.keys, k)
    }

    /// How many positions the tree has.
    pub(crate) fn len(&self) -> usize
        ensures count { result ≡ length self.now.rows }
        ensures numbered { IsNumbered self.now }
    {
        self.rows.len()
    }

    /// The row at position `p`, from 0.
    pub(crate) fn row(&self, p: usize) -> Row<u32>
        requires { p < size_of (spelled self.now.rows) }
        ensures row { slice_get self.now.rows p ≡ Some result }
        ensures bound { length self.now.rows < 2 ^ 63 }
        ensures numbered { IsNumbered self.now }
    {
        row_at(&self.rows, p)
    }

    /// All rows, in preorder.
    pub(crate) fn rows(&self) -> &[Row<u32>]
        ensures rows { result.now ≡ self.now.rows }
        ensures numbered { IsNumbered self.now }
    {
        self.rows.as_slice()
    }
}
