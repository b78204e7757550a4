ghost use Rattle.std.specs.Prelude.{◌≡◌, ◌<◌, ◌≤◌, ◌++◌, [], ◌∷◌, length, map, slice_get, Some, OnOk, OnErr};
ghost use Rattle.pc_ground.specs.Keys.{key_node};

use pc_common::Memory;
use pc_ground::NodeKey;
use std::alloc::Global;
use std::marker::Model;

/// The nodes of a step line, in room that is taken beforehand.
pub struct NodeRow {
    nodes: Vec<NodeKey>,
    /// How many nodes there is room for in all.
    room: usize,
}

// By hand: docs/DECISIONS.md, "Drops are written by hand".
impl Drop for NodeRow {
    fn drop(self) {
        let NodeRow { nodes: _, room: _ } = self;
    }
}

impl Model for NodeRow {
    ghost use Rattle.std.specs.Prelude.{◌≤◌, map, vec_len, vec_capacity};
    ghost use Rattle.pc_ground.specs.Keys.{key_node};
    ghost use Rattle.refutation.specs.Row.{Row};

    ghost Value = { Row };

    ghost view = { λ s. record { nodes = map key_node s.nodes.items; spare = s.room } };

    ghost invariant = { λ s. (vec_len s.nodes ≤ s.room) × (s.room ≤ vec_capacity s.nodes) };
}

impl NodeRow {
    /// No node, and room for none. Takes no memory.
    pub fn new(alloc: Global) -> NodeRow
        ensures { result ≡ record { nodes = []; spare = 0 } }
    {
        NodeRow {
            nodes: Vec::new(alloc),
            room: 0,
        }
    }

    /// Takes room for `k` nodes in all. The nodes stay. Where memory is refused, nothing changes.
    pub fn reserve(&mut self, k: usize) -> Result<(), Memory>
        ensures nodes { self.new.nodes ≡ self.old.nodes }
        ensures ok { OnOk result (k ≤ self.new.spare) }
        ensures err { OnErr result (self.new ≡ self.old) }
        ensures kept { self.old.spare ≤ self.new.spare }
    {
        self.nodes.reserve(k.saturating_sub(self.nodes.len()))?;
        self.room = self.nodes.capacity();
        Ok(())
    }

    /// How many nodes there are. Takes no memory.
    pub fn len(&self) -> usize
        ensures count { result ≡ length self.now.nodes }
        ensures bound { length self.now.nodes ≤ self.now.spare }
    {
        self.nodes.len()
    }

    /// The node at `k`, from 0. Takes no memory.
    pub fn get(&self, k: usize) -> NodeKey
        requires { k < length self.now.nodes }
        ensures { slice_get self.now.nodes k ≡ Some (key_node result) }
    {
        self.nodes[k]
    }

    /// The nodes as a slice. Takes no memory.
    pub fn as_slice(&self) -> &[NodeKey]
        ensures { map key_node result.now ≡ self.now.nodes }
    {
        self.nodes.as_slice()
    }

    /// Lets go of the nodes. The room stays.
    pub(crate) fn clear(&mut self)
        ensures { self.new ≡ record { nodes = []; spare = self.old.spare } }
    {
        self.nodes.clear();
    }

    /// Puts a node last, into room that is there.
    pub(crate) fn put(&mut self, key: NodeKey)
        requires { length self.old.nodes < self.old.spare }
        ensures { self.new ≡ record { nodes = self.old.nodes ++ key_node key ∷ []; spare = self.old.spare } }
    {
        // there is room, so no memory can be refused
        let _ = self.nodes.push(key);
    }
}
