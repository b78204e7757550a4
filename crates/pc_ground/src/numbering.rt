ghost use Rattle.std.specs.Prelude.{◌≡◌, ◌≤◌, ◌<◌, [], ℕ, MatchOption, Some, length, slice_get, is_ok, if◌then◌else◌};
ghost use Rattle.pc_common.specs.declared.limits.TheConstants.{MAX_NODES};
ghost use Rattle.pc_ground.specs.Keys.{key_node};
ghost use Rattle.pc_ground.specs.Numbers.{seen, IsNumberOf, AreDistinct};

use super::node_key::NodeKey;
use indexmap::IndexMap;
use pc_common::Memory;
use std::alloc::Global;
use std::marker::Model;

/// Nodes with their numbers: each once, numbered from 0. There are 262,144 keys, so it has no more.
pub struct Numbering {
    // A map without values: libraries above an `IndexSet` carry the contracts of maps and of sets.
    keys: IndexMap<NodeKey, ()>,
}

// By hand: docs/DECISIONS.md, "Drops are written by hand".
impl Drop for Numbering {
    fn drop(self) {
        let Numbering { keys: _ } = self;
    }
}

impl Model for Numbering {
    ghost use Rattle.std.specs.Prelude.{List, map, length, ◌≤◌};
    ghost use Rattle.std.specs.Map.{keys_of};
    ghost use Rattle.pc_common.specs.World.{Node};
    ghost use Rattle.pc_common.specs.declared.limits.TheConstants.{MAX_NODES};
    ghost use Rattle.pc_ground.specs.Keys.{key_node};

    ghost Value = { List Node };

    ghost view = { λ s. map key_node (keys_of s.keys.entries) };

    ghost invariant = { λ s. length (keys_of s.keys.entries) ≤ MAX_NODES };
}

impl Numbering {
    /// No nodes. Takes no memory.
    pub fn new(alloc: Global) -> Numbering
        ensures { result ≡ [] }
    {
        Numbering {
            keys: IndexMap::new(alloc),
        }
    }

    /// Numbers this node after the others, where it has no number. Where memory is refused, nothing changes.
    pub fn see(&mut self, key: NodeKey) -> Result<(), Memory>
        ensures { self.new ≡ (if is_ok result then seen self.old (key_node key) else self.old) }
    {
        self.keys.insert(key, ())?;
        Ok(())
    }

    /// How many nodes there are, at most 262,144. Takes no memory.
    pub fn len(&self) -> u32
        ensures count { result ≡ length self.now }
        ensures bound { length self.now ≤ MAX_NODES }
        ensures distinct { AreDistinct self.now }
    {
        self.keys.len() as u32
    }

    /// The number of this node, None where it has none. One look-up; takes no memory.
    pub fn number(&self, key: NodeKey) -> Option<u32>
        ensures { MatchOption result ((k : ℕ) → IsNumberOf self.now k (key_node key) → ⊥)
            (λ k. IsNumberOf self.now k (key_node key)) }
    {
        let number = self.keys.get_index_of(&key)?;
        Some(number as u32)
    }

    /// The node of number `k`, from 0. Takes no memory.
    pub fn key(&self, k: u32) -> NodeKey
        requires { k < length self.now }
        ensures { slice_get self.now k ≡ Some (key_node result) }
    {
        self.keys.keys()[k as usize]
    }
}
