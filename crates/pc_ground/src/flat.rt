ghost use Rattle.std.specs.Prelude.{◌≡◌, ◌<◌, ◌^◌, List, length, map, slice_get, Some};
ghost use Rattle.pc_common.specs.World.{Node as PlainNode};
ghost use Rattle.pc_ground.specs.declared.row.Row.{Row as PlainRow};
ghost use Rattle.pc_ground.specs.Keys.{row_node};
ghost use Rattle.pc_ground.specs.Rows.{IsFlat};

use super::node_key::NodeKey;
use super::row::Row;
use pc_common::Listed;
use std::marker::Model;

/// A tree as its rows in preorder, which spell exactly one tree.
pub struct Flat {
    rows: Listed<Row<NodeKey>>,
}

// By hand: docs/DECISIONS.md, "Drops are written by hand".
impl Drop for Flat {
    fn drop(self) {
        let Flat { rows: _ } = self;
    }
}

impl Model for Flat {
    ghost Value = { List (PlainRow PlainNode) };

    ghost view = { λ s. map row_node s.rows };

    ghost invariant = { λ s. IsFlat (map row_node s.rows) };
}

impl Flat {
    /// The tree that these rows spell. Takes no memory.
    pub fn new(rows: Listed<Row<NodeKey>>) -> Flat
        requires { IsFlat (map row_node rows) }
        ensures { result ≡ map row_node rows }
    {
        Flat { rows }
    }

    /// How many positions the tree has, at least 1. Takes no memory.
    pub fn len(&self) -> usize
        ensures count { result ≡ length self.now }
        ensures bound { length self.now < 2 ^ 63 }
        ensures one_tree { IsFlat self.now }
    {
        self.rows.len()
    }

    /// The row at position `k`, from 0. Takes no memory.
    pub fn row(&self, k: usize) -> Row<NodeKey>
        requires { k < length self.now }
        ensures row { slice_get self.now k ≡ Some (row_node result) }
        ensures one_tree { IsFlat self.now }
    {
        *self.rows.get(k)
    }
}
