ghost use Rattle.std.specs.Prelude.{◌≡◌, ◌↔◌, ◌<◌, ◌≤◌, ◌+◌, ◌-◌, ◌*◌, ◌++◌, [], ◌∷◌, ℕ, true, length, take, slice_get, slice_index, Some, IsTrue, IfOk, OnOk, OnErr, MatchBool};
ghost use Rattle.pc_common.specs.Chain.{Chain};
ghost use Rattle.pc_common.specs.declared.limits.TheConstants.{MAX_NODES};
ghost use Rattle.pc_ground.specs.Literals.{Joins, IsPresent, Holds};
ghost use Rattle.undo_trail.specs.Bits.{column};
ghost use Rattle.undo_trail.specs.BitTable.{Extends};
ghost use Rattle.order_graph.specs.Ways.{IsBelow};
ghost use Rattle.order_graph.specs.State.{words_for, most_words, recorded_since, IsCut, IsGraph};
ghost use Rattle.order_graph.specs.Adding.{IsAdded};
ghost use Rattle.order_graph.specs.Clashes.{IsConsistentWith, ClashesWith};
ghost use Rattle.order_graph.specs.Rows.{Enters, IsSized, Takes};

use super::clash::Added;
use super::clashes::{clash_of, would_clash};
use super::counts::count_at;
use super::mark::Mark;
use super::rows::{enter, is_present, is_true, reaches};
use pc_common::Memory;
use pc_ground::Literal;
use std::alloc::Global;
use std::marker::Model;
use std::sync::ledger::Ledger;
use undo_trail::{Mark as Moment, Steps, UndoTable};

/// A consistent list of literals over numbered nodes, with what its chains reach.
pub struct OrderGraph {
    nodes: u32,
    table: UndoTable,
    literals: Vec<Literal<u32>>,
    /// The table's moment when the first k literals stood, for each k.
    moments: Vec<Moment>,
    /// How many marks there are at each number of literals. So `mark` has no answer for want of memory.
    counts: Vec<u64>,
    live: u64,
}

// By hand: docs/DECISIONS.md, "Drops are written by hand".
impl Drop for OrderGraph {
    fn drop(self) {
        let OrderGraph {
            nodes: _,
            table: _,
            literals: _,
            moments: _,
            counts: _,
            live: _,
        } = self;
    }
}

impl Model for OrderGraph {
    ghost use Rattle.order_graph.specs.State.{Graph};
    ghost use Rattle.order_graph.specs.Marks.{marks_from};
    ghost use Rattle.order_graph.specs.Order.{IsOrder};

    ghost Value = { Graph };

    ghost view = { λ s. record {
      nodes = s.nodes;
      literals = s.literals.items;
      marks = marks_from 0 s.counts.items;
      recorded = s.moments.items;
    } };

    ghost invariant = { λ s. IsOrder s.nodes s.table s.literals.items s.moments.items s.counts.items s.live };
}

/// Puts the literal last, and enters it into the table. The room of all lists is taken first.
fn keep<L: Ledger>(
    table: &mut UndoTable,
    literals: &mut Vec<Literal<u32>>,
    moments: &mut Vec<Moment>,
    counts: &mut Vec<u64>,
    nodes: u32,
    literal: Literal<u32>,
    steps: &mut Steps<L>,
) -> Result<(), Memory>
    requires sized { IsSized nodes table.old }
    requires below { IsBelow nodes literal }
    requires takes { Takes nodes literal table.old }
    ensures entered { OnOk result (Enters nodes literal table.old table.new) }
    ensures trail { OnOk result (Extends table.old table.new (nodes * (table.old.words + 1) + 2)) }
    ensures literals { OnOk result (literals.new.items ≡ literals.old.items ++ literal ∷ []) }
    ensures moments { OnOk result (moments.new.items ≡ moments.old.items ++ length table.new.past ∷ []) }
    ensures counts { OnOk result (counts.new.items ≡ counts.old.items ++ 0 ∷ []) }
    ensures err { OnErr result ((table.new ≡ table.old) × (literals.new.items ≡ literals.old.items)
        × (moments.new.items ≡ moments.old.items) × (counts.new.items ≡ counts.old.items)) }
    ensures cost { steps.new ≤ steps.old + nodes }
{
    literals.reserve(1)?;
    moments.reserve(1)?;
    counts.reserve(1)?;
    enter(table, nodes, literal, steps)?;
    literals.push_reserved(literal);
    moments.push_reserved(table.mark());
    counts.push_reserved(0);
    Ok(())
}

impl OrderGraph {
    /// A graph over the nodes from 0 to one below `nodes`, of which there are at most 262,144, with no
    /// literal and no mark. Takes memory for two bit rows a node and three more.
    pub fn new(alloc: Global, nodes: u32) -> Result<OrderGraph, Memory>
        requires { nodes ≤ MAX_NODES }
        ensures { IfOk result (λ g. g ≡ record { nodes = nodes; literals = []; marks = []; recorded = 0 ∷ [] }) }
    {
        let words = (nodes as usize + 63) / 64;
        let table = UndoTable::new(alloc, 2 * nodes as usize + 3, words)?;
        let moments = vec![in alloc; table.mark()]?;
        let counts = vec![in alloc; 0]?;
        Ok(OrderGraph {
            nodes,
            table,
            literals: Vec::new(alloc),
            moments,
            counts,
            live: 0,
        })
    }

    /// How many literals there are. Takes no memory.
    pub fn len(&self) -> usize
        ensures value { result ≡ length self.now.literals }
        ensures graph { IsGraph self.now }
    {
        self.literals.len()
    }

    /// The literal at `k`, from 0, in order of assertion. Takes no memory.
    pub fn literal(&self, k: usize) -> Literal<u32>
        requires { k < length self.now.literals }
        ensures { slice_get self.now.literals k ≡ Some result }
    {
        self.literals[k]
    }

    /// Whether a chain of asserted edges leads from `a` to `b`. Takes no memory.
    pub fn reaches(&self, a: u32, b: u32) -> bool
        requires a_in { a < self.now.nodes }
        requires b_in { b < self.now.nodes }
        ensures { IsTrue result ↔ Chain (Joins self.now.literals) a b }
    {
        reaches(&self.table, a, b)
    }

    /// To which nodes a chain of asserted edges leads from `a`: the columns that are set, by their numbers. Takes no
    /// memory.
    pub fn descendants(&self, a: u32) -> &[u64]
        requires { a < self.now.nodes }
        ensures { (b : ℕ) → b < self.now.nodes
            → (column result.now b ≡ true) ↔ Chain (Joins self.now.literals) a b }
    {
        self.table.row(a as usize)
    }

    /// Whether `node` is asserted, by itself or as an end of an edge. Takes no memory.
    pub fn present(&self, node: u32) -> bool
        requires { node < self.now.nodes }
        ensures { IsTrue result ↔ IsPresent self.now.literals node }
    {
        is_present(&self.table, self.nodes, node)
    }

    /// Whether the literal is true where just the present nodes are there, in the order of the chains of
    /// asserted edges. Takes no memory.
    pub fn true_now(&self, literal: Literal<u32>) -> bool
        requires { IsBelow self.now.nodes literal }
        ensures { IsTrue result ↔ Holds (IsPresent self.now.literals) (Chain (Joins self.now.literals)) literal }
    {
        is_true(&self.table, self.nodes, literal)
    }

    /// Whether the literal would clash: whether the literals with it are not consistent. Takes no memory.
    pub fn would_clash(&self, literal: Literal<u32>) -> bool
        requires { IsBelow self.now.nodes literal }
        ensures { MatchBool result (ClashesWith self.now.literals literal)
            (IsConsistentWith self.now.literals literal) }
    {
        would_clash(&self.table, self.nodes, literal)
    }

    /// Puts the literal after the others, or returns a clash where it can't stand with them. After a clash,
    /// and after `Memory`, the graph is as it was.
    ///
    /// An edge from a to b is tried for these clashes, in this order: a is denied, b is denied, a chain leads
    /// from b to a or they are one, a denied pair would be joined. Of several such pairs the first in order
    /// of assertion is told. A chain that is told is a shortest one, and of several the one with the lowest
    /// number at the first place where they differ.
    pub fn assert_literal<L: Ledger>(
        &mut self,
        literal: Literal<u32>,
        steps: &mut Steps<L>,
    ) -> Result<Added, Memory>
        requires { IsBelow self.old.nodes literal }
        ensures added { IfOk result (λ added. IsAdded self.old literal self.new added) }
        ensures err { OnErr result (self.new ≡ self.old) }
        // each joined row is a step
        ensures cost { steps.new ≤ steps.old + self.old.nodes }
    {
        let alloc = *self.literals.allocator();
        let found = clash_of(alloc, &self.table, self.nodes, &self.literals, literal)?;
        if let Some(clash) = found {
            return Ok(Added::Clash(clash));
        }
        keep(
            &mut self.table,
            &mut self.literals,
            &mut self.moments,
            &mut self.counts,
            self.nodes,
            literal,
            steps,
        )?;
        Ok(Added::Kept)
    }

    /// The present moment, to go back to. There are fewer than 2^64 - 1 marks. Takes no memory.
    pub fn mark(&mut self) -> Mark
        requires { length self.old.marks < 18446744073709551615 }
        ensures place { result ≡ length self.old.marks }
        ensures graph { self.new ≡ record self.old { marks = self.old.marks ++ length self.old.literals ∷ [] } }
    {
        let place = self.live;
        let last = self.counts.len() - 1;
        self.counts[last] += 1;
        self.live += 1;
        Mark::from_place(place)
    }

    /// Goes back to the literals at `mark`, which and the earlier marks stay. Each word put back is one step.
    /// Takes no memory.
    pub fn undo<L: Ledger>(&mut self, mark: Mark, steps: &mut Steps<L>)
        requires { mark < length self.old.marks }
        ensures cut { IsCut self.old (slice_index self.old.marks mark) mark self.new }
        ensures count { slice_index self.old.marks mark ≤ length self.old.literals }
        ensures cost { steps.new ≡ steps.old + recorded_since self.old (slice_index self.old.marks mark) }
        ensures bound { steps.new ≤ steps.old + (length self.old.literals - slice_index self.old.marks mark)
            * most_words self.old.nodes }
    {
        let (count, marks) = count_at(&self.counts, self.live, mark.place());
        self.table.undo(self.moments[count], steps);
        self.literals.truncate(count);
        self.moments.truncate(count + 1);
        self.counts[count] = marks;
        self.counts.truncate(count + 1);
        self.live = mark.place() + 1;
    }
}
