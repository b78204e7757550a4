ghost use Rattle.std.specs.Prelude.{◌≡◌, ◌<◌, ◌+◌, IfOk};
ghost use Rattle.pc_common.specs.World.{Node as PlainNode};
ghost use Rattle.pc_ground.specs.Tree.{Tree};
ghost use Rattle.pc_ground.specs.Rows.{rows_of};
ghost use Rattle.pc_ground.specs.Folded.{IsFolded};
ghost use Rattle.pc_ground.specs.Numbers.{numbered};
ghost use Rattle.solver.specs.Spelled.{spelled};
ghost use Rattle.solver.specs.Weights.{weight};
ghost use Rattle.solver.specs.Descents.{HasMore};
ghost use Rattle.solver.specs.Branches.{IsBlank};
ghost use Rattle.solver.specs.Searched.{HasUnmetBranch};
ghost use Rattle.solver.specs.Statuses.{IsStatus, status_weight};
ghost use Rattle.solver.specs.Turns.{IsTurnOfRows, IsTurnOfTree, GoesOn, turn_weight};

mod advance;
pub(crate) mod answer;
mod asserted;
mod branch;
mod candidate;
mod choose;
mod descend;
mod enter;
mod find;
mod later;
mod leaf;
mod truths;

use self::advance::advance;
use self::answer::Answer;
use self::branch::Branch;
use self::find::{SearchStatus, find};
use crate::tree::numbered_tree::NumberedTree;
use crate::tree::place::Place;
use crate::tree::side::Side;
use order_graph::OrderGraph;
use pc_common::Memory;
use pc_ground::{Flat, Numbering, RowKind, Version};
use refutation::{Refutation, Step};
use std::alloc::Global;
use std::marker::Model;
use std::sync::ledger::Ledger;
use undo_trail::Steps;

/// A search for a world that satisfies a tree, between two of its turns.
pub struct Search {
    alloc: Global,
    version: Version,
    tree: NumberedTree,
    branch: Branch,
    first: Place,
}

// By hand: docs/DECISIONS.md, "Drops are written by hand".
impl Drop for Search {
    fn drop(self) {
        let Search {
            alloc: _,
            version: _,
            tree: _,
            branch: _,
            first: _,
        } = self;
    }
}

impl Model for Search {
    ghost use Rattle.solver.specs.Branches.{branches_of};
    ghost use Rattle.solver.specs.Searched.{Searched, HasCandidate};

    ghost Value = { Searched };

    ghost view = { λ s. record {
      version = s.version;
      nodes = s.tree.nodes;
      rows = s.tree.rows;
      graph = s.branch.graph;
      steps = s.branch.refutation;
      branches = branches_of s.tree s.branch;
    } };

    ghost invariant = { λ s. HasCandidate s.version s.tree s.branch s.first };
}

/// What a turn hands out.
#[derive(Drop)]
pub enum Turn {
    /// The search goes on.
    More(Search),
    Done(Answer),
}

/// Hands out what was found.
fn settle(
    alloc: Global,
    version: Version,
    tree: NumberedTree,
    branch: Branch,
    status: SearchStatus,
) -> Turn
    requires { IsStatus version tree branch status }
    ensures turn { IsTurnOfRows version tree.nodes tree.rows result }
    ensures weight { turn_weight result ≡ status_weight tree branch status }
    ensures steps { GoesOn (λ old new. new ≡ old) branch.refutation result }
{
    match status {
        SearchStatus::Refuted => Turn::Done(Answer::Unobservable(branch.into_refutation(alloc))),
        SearchStatus::Satisfied(shown) => Turn::Done(Answer::Observable(shown)),
        SearchStatus::Undecided(first) => Turn::More(Search {
            alloc,
            version,
            tree,
            branch,
            first,
        }),
    }
}

/// Enters the root. Where it is False, one leaf closes its branch.
fn find_first<L: Ledger>(
    alloc: Global,
    tree: &NumberedTree,
    version: Version,
    branch: &mut Branch,
    steps: &mut Steps<L>,
) -> Result<SearchStatus, Memory>
    requires { IsBlank tree.now branch.old }
    ensures { IfOk result (IsStatus version tree.now branch.new) }
{
    let root = tree.row(0);
    if let RowKind::False = root.kind {
        branch.refutation.close_leaf(Step::False)?;
        return Ok(SearchStatus::Refuted);
    }
    let whole = Side {
        negated: false,
        root: 0,
        denied: None,
    };
    find(alloc, tree, version, whole, branch, steps)
}

/// Enters the root, and hands out what was found first.
fn start<L: Ledger>(
    alloc: Global,
    tree: NumberedTree,
    version: Version,
    mut branch: Branch,
    steps: &mut Steps<L>,
) -> Result<Turn, Memory>
    requires { IsBlank tree branch }
    ensures { IfOk result (IsTurnOfRows version tree.nodes tree.rows) }
{
    let status = find_first(alloc, &tree, version, &mut branch, steps)?;
    Ok(settle(alloc, version, tree, branch, status))
}

impl Search {
    /// Begins the search of this version over this tree, whose nodes the numbering lists. A constant stands
    /// in the tree only where it is the whole tree.
    pub fn begin<L: Ledger>(
        alloc: Global,
        tree: &Flat,
        numbering: &Numbering,
        version: Version,
        steps: &mut Steps<L>,
    ) -> Result<Turn, Memory>
        requires numbered { (t : Tree PlainNode) → tree.now ≡ rows_of t → numbering.now ≡ numbered t }
        requires folded { (t : Tree PlainNode) → tree.now ≡ rows_of t → IsFolded t }
        ensures { IfOk result (λ turn.
            (t : Tree PlainNode) → tree.now ≡ rows_of t → IsTurnOfTree version numbering.now t turn) }
    {
        let search_tree = NumberedTree::new(alloc, tree, numbering)?;
        let branch = Branch::new(alloc, &search_tree)?;
        let turn = start(alloc, search_tree, version, branch, steps)?;
        Ok(turn)
    }

    /// What is asserted on the first open branch. Takes no memory.
    pub fn graph(&self) -> &OrderGraph
        ensures graph { result.now ≡ self.now.graph }
        ensures searching { HasUnmetBranch self.now }
    {
        &self.branch.graph
    }

    /// The steps so far. Takes no memory.
    pub fn refutation(&self) -> &Refutation
        ensures steps { result.now ≡ self.now.steps }
        ensures searching { HasUnmetBranch self.now }
    {
        &self.branch.refutation
    }

    /// Splits one Or, and closes branches until one is open or none is left. Where it returns `Memory`,
    /// nothing is left of the search.
    pub fn turn<L: Ledger>(self, steps: &mut Steps<L>) -> Result<Turn, Memory>
        ensures turn { IfOk result (IsTurnOfRows self.version self.nodes self.rows) }
        ensures weight { IfOk result (λ turn. turn_weight turn < 1 + weight (spelled self.rows) self.branches) }
        ensures steps { IfOk result (GoesOn HasMore self.steps) }
    {
        let Search {
            alloc,
            version,
            tree,
            mut branch,
            first,
        } = self;
        let status = advance(alloc, &tree, version, first, &mut branch, steps)?;
        Ok(settle(alloc, version, tree, branch, status))
    }
}
