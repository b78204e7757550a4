ghost use Rattle.std.specs.Prelude.{◌≡◌, ◌≤◌, ◌+◌, IfOk, MatchOption, length};
ghost use Rattle.pc_ground.specs.Refutes.{literals_of};
ghost use Rattle.solver.specs.Spelled.{spelled};
ghost use Rattle.solver.specs.Numbered.{HasNoFalse};
ghost use Rattle.solver.specs.Places.{place_signed, side_positions, IsCandidate, AreChosen, IsSideIn};
ghost use Rattle.solver.specs.Opens.{positions};
ghost use Rattle.solver.specs.Branches.{branches_with, HasOpenBranch};
ghost use Rattle.solver.specs.Weights.{weight};
ghost use Rattle.solver.specs.Descents.{IsLonger};
ghost use Rattle.solver.specs.Statuses.{IsStatus, status_weight};

use super::answer::graph_of;
use super::asserted::Asserted;
use super::branch::Branch;
use super::candidate::{first_candidate, is_candidate_now};
use super::descend::descend;
use crate::hints::Agenda;
use crate::tree::numbered_tree::NumberedTree;
use crate::tree::place::Place;
use crate::tree::side::Side;
use graph_text::Graph;
use order_graph::OrderGraph;
use pc_common::Memory;
use pc_ground::Version;
use std::alloc::Global;
use std::sync::ledger::Ledger;
use undo_trail::Steps;

/// What a search finds on its open branches.
#[derive(Drop)]
pub(crate) enum SearchStatus {
    /// No branch is open.
    Refuted,
    /// All of the tree is true in the world of this graph.
    Satisfied(Graph),
    /// The first open branch has this candidate.
    Undecided(Place),
}

/// A candidate of the branch: what the agenda proposes, or else the first one.
fn next_place(
    alloc: Global,
    tree: &NumberedTree,
    graph: &OrderGraph,
    asserted: &Asserted,
    agenda: &mut Agenda,
) -> Result<Option<Place>, Memory>
    requires nodes { graph.now.nodes ≡ length tree.now.nodes }
    requires literals { graph.now.literals ≡ literals_of (spelled tree.now.rows) (positions asserted.now) }
    ensures { IfOk result (λ found. MatchOption found (AreChosen (spelled tree.now.rows) (positions asserted.now))
        (λ q. IsCandidate (spelled tree.now.rows) (positions asserted.now) (place_signed q))) }
{
    agenda.note(tree, graph, asserted.as_slice());
    if let Some(place) = agenda.first_open(tree.rows(), graph) {
        if is_candidate_now(alloc, tree, graph, asserted, place)? {
            return Ok(Some(place));
        }
    }
    first_candidate(alloc, tree, graph, asserted)
}

/// Descends into the side, and looks at the branch that is open then. With no candidate on it
/// all is true in the graph's world.
pub(crate) fn find<L: Ledger>(
    alloc: Global,
    tree: &NumberedTree,
    version: Version,
    side: Side,
    branch: &mut Branch,
    steps: &mut Steps<L>,
) -> Result<SearchStatus, Memory>
    requires side { IsSideIn (spelled tree.now.rows) side }
    requires no_false { HasNoFalse tree.now }
    requires state { HasOpenBranch version tree.now branch.old (side_positions (spelled tree.now.rows) side) }
    ensures found { IfOk result (IsStatus version tree.now branch.new) }
    ensures lighter { IfOk result (λ found. status_weight tree.now branch.new found
        ≤ 1 + weight (spelled tree.now.rows)
        (branches_with tree.now branch.old (side_positions (spelled tree.now.rows) side))) }
    ensures longer { IfOk result (λ _. IsLonger branch.old.refutation branch.new.refutation) }
{
    let is_open = descend(alloc, tree, version, side, branch, steps)?;
    if !is_open {
        return Ok(SearchStatus::Refuted);
    }
    // both for the proof alone: what the types of the graph and of the tree keep
    let _asserted_so_far = branch.graph.len();
    let _root = tree.row(0);
    if let Some(place) = next_place(
        alloc,
        tree,
        &branch.graph,
        &branch.asserted,
        &mut branch.agenda,
    )? {
        return Ok(SearchStatus::Undecided(place));
    }
    let shown = graph_of(alloc, tree, &branch.graph)?;
    Ok(SearchStatus::Satisfied(shown))
}
