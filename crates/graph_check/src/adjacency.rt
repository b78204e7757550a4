ghost use Rattle.std.specs.Prelude.{◌≡◌, ◌<◌, ◌≤◌, ◌-◌, ◌↔◌, ◌⊎◌, [], ℕ, true, length, IfOk, OnOk};
ghost use Rattle.graph_check.specs.Arcs.{Joins, IsWalk, ComesTo, AreLinked};
ghost use Rattle.graph_check.specs.Columns.{is_set};

use pc_common::Memory;
use std::alloc::Global;
use std::marker::Model;

/// An edge between two numbered nodes.
#[derive(Clone, Copy)]
pub(crate) struct Arc {
    pub(crate) from: u32,
    pub(crate) to: u32,
    /// The edge before it from the same node, counted from 1; 0 where it is the first.
    pub(crate) before: usize,
}

/// Edges between numbered nodes, each linked to the one before it from the same node.
pub(crate) struct Adjacency {
    /// Of each node, the last edge from it, counted from 1; 0 where it has none.
    heads: Vec<usize>,
    arcs: Vec<Arc>,
}

// By hand: docs/DECISIONS.md, "Drops are written by hand".
impl Drop for Adjacency {
    fn drop(self) {
        let Adjacency { heads: _, arcs: _ } = self;
    }
}

impl Model for Adjacency {
    ghost use Rattle.graph_check.specs.Arcs.{Arcs, AreLinked};

    ghost Value = { Arcs };

    ghost view = { λ s. record { heads = s.heads.items; arcs = s.arcs.items } };

    ghost invariant = { λ s. AreLinked (record { heads = s.heads.items; arcs = s.arcs.items }) };
}

impl Adjacency {
    /// `nodes` nodes without edges. Takes memory for a number of each node.
    pub(crate) fn new(alloc: Global, nodes: usize) -> Result<Adjacency, Memory>
        ensures nodes { IfOk result (λ a. length a.heads ≡ nodes) }
        ensures clear { IfOk result (λ a. a.arcs ≡ []) }
        ensures linked { IfOk result (λ a. AreLinked a) }
    {
        Ok(Adjacency {
            heads: vec![in alloc; 0; nodes]?,
            arcs: Vec::new(alloc),
        })
    }

    /// Enters the edge from `from` to `to`, after the others. Where memory is refused, nothing changes.
    pub(crate) fn push(&mut self, from: u32, to: u32) -> Result<(), Memory>
        requires from { from < length self.old.heads }
        requires to { to < length self.old.heads }
        ensures nodes { length self.new.heads ≡ length self.old.heads }
        ensures linked { AreLinked self.new }
        ensures joins { OnOk result ((a b : ℕ) → Joins self.new a b ↔ (Joins self.old a b ⊎ ((a ≡ from) × (b ≡ to)))) }
    {
        let before = self.heads[from as usize];
        self.arcs.push(Arc { from, to, before })?;
        self.heads[from as usize] = self.arcs.len();
        Ok(())
    }

    /// How many nodes there are.
    pub(crate) fn nodes(&self) -> usize
        ensures { result ≡ length self.now.heads }
    {
        self.heads.len()
    }

    /// Where the walk over the edges from `a` begins.
    pub(crate) fn first(&self, a: usize) -> usize
        requires { a < length self.now.heads }
        ensures walk { IsWalk self.now a result }
        ensures all { (b : ℕ) → Joins self.now a b → ComesTo self.now result b }
    {
        self.heads[a]
    }

    /// The edge that a walk is at. The walk goes on from `before` of it.
    pub(crate) fn arc(&self, at: usize) -> Arc
        requires some { 0 < at }
        requires low { at ≤ length self.now.arcs }
        ensures to { result.to < length self.now.heads }
        ensures falls { result.before < at }
        ensures walk { (a : ℕ) → IsWalk self.now a at → IsWalk self.now a result.before × Joins self.now a result.to }
        ensures rest { (b : ℕ) → ComesTo self.now at b → (result.to ≡ b) ⊎ ComesTo self.now result.before b }
    {
        self.arcs[at - 1]
    }

    /// Whether an edge from `a` leads to `b`. A walk over the edges from `a`.
    pub(crate) fn joins(&self, a: usize, b: usize) -> bool
        requires { a < length self.now.heads }
        ensures { (result ≡ true) ↔ Joins self.now a b }
    {
        let mut at = self.first(a);
        while at > 0 {
            let arc = self.arc(at);
            if arc.to as usize == b {
                return true;
            }
            at = arc.before;
        }
        false
    }

    /// Whether an edge from `a` leads to `b`, or to a node whose flag is set. A walk over the edges from `a`.
    pub(crate) fn leads(&self, a: usize, b: usize, column: &[bool]) -> bool
        requires a_in { a < length self.now.heads }
        requires sized { length column.now ≡ length self.now.heads }
        ensures { (result ≡ true) ↔ ((c : ℕ) × Joins self.now a c × ((c ≡ b) ⊎ (is_set column.now c ≡ true))) }
    {
        let mut at = self.first(a);
        while at > 0 {
            let arc = self.arc(at);
            if arc.to as usize == b || column[arc.to as usize] {
                return true;
            }
            at = arc.before;
        }
        false
    }
}
