ghost use Rattle.std.specs.Prelude.{◌≡◌, ◌<◌, ◌^◌, ℕ, IfOk, IsTrue, ◌↔◌, MatchBool, MatchOption, Some, length};
ghost use Rattle.pc_ground.specs.Tree.{Tree};
ghost use Rattle.pc_ground.specs.Refutes.{subtree_at, literals_of};
ghost use Rattle.solver.specs.Spelled.{spelled};
ghost use Rattle.solver.specs.Met.{IsMet};
ghost use Rattle.solver.specs.Places.{place_signed, IsUntaken, IsTaken, IsPending, IsPassed, IsCandidate, IsChosen, AreChosen};
ghost use Rattle.solver.specs.Opens.{positions};

use super::asserted::Asserted;
use super::truths::{flag_at, truth_at, truths};
use crate::tree::numbered_tree::NumberedTree;
use crate::tree::ors::{is_or, sides};
use crate::tree::place::Place;
use order_graph::OrderGraph;
use pc_common::Memory;
use pc_ground::Version;
use std::alloc::Global;

/// Whether the place is asserted, and its sides at these positions are not.
fn is_untaken(asserted: &Asserted, place: Place, left: usize, right: usize) -> bool
    ensures { MatchBool result (IsUntaken asserted.now place left right) (IsTaken asserted.now place left right) }
{
    let negated = place.negated;
    asserted.has(place)
        && !asserted.has(Place {
            negated,
            position: left,
        })
        && !asserted.has(Place {
            negated,
            position: right,
        })
}

/// Whether the two are one.
fn is_one(a: bool, b: bool) -> bool
    ensures { MatchBool result (a ≡ b) (a ≡ b → ⊥) }
{
    a == b
}

/// Whether the place is an Or on the branch that has no side on it.
fn is_pending(tree: &NumberedTree, asserted: &Asserted, place: Place) -> bool
    ensures pending { MatchBool result (IsPending (spelled tree.now.rows) asserted.now place)
        (IsPassed (spelled tree.now.rows) asserted.now place) }
    ensures inside { IsTrue result → place.position < length tree.now.rows }
    ensures small { IsTrue result → place.position < 2 ^ 63 }
{
    if !is_or(tree, place) {
        return false;
    }
    let (left, right) = sides(tree, Version::One, place);
    is_untaken(asserted, place, left.root, right.root)
}

/// Whether the place is a candidate of the branch, where `truth` tells whether the tree's part there is true now.
fn is_candidate(tree: &NumberedTree, asserted: &Asserted, place: Place, truth: bool) -> bool
    requires { (s : Tree ℕ) → subtree_at (spelled tree.now.rows) place.position ≡ Some s
        → IsTrue truth ↔ IsMet (literals_of (spelled tree.now.rows) (positions asserted.now)) s }
    ensures { MatchBool result (IsCandidate (spelled tree.now.rows) (positions asserted.now) (place_signed place))
        (IsChosen (spelled tree.now.rows) (positions asserted.now) (place_signed place)) }
{
    if !is_pending(tree, asserted, place) {
        return false;
    }
    is_one(truth, place.negated)
}

/// Whether the place is a candidate of the branch: an Or on it that is not true now and that has no side on
/// it.
pub(crate) fn is_candidate_now(
    alloc: Global,
    tree: &NumberedTree,
    graph: &OrderGraph,
    asserted: &Asserted,
    place: Place,
) -> Result<bool, Memory>
    requires nodes { graph.now.nodes ≡ length tree.now.nodes }
    requires literals { graph.now.literals ≡ literals_of (spelled tree.now.rows) (positions asserted.now) }
    ensures candidate { IfOk result (λ yes. IsTrue yes
        → IsCandidate (spelled tree.now.rows) (positions asserted.now) (place_signed place)) }
    ensures small { IfOk result (λ yes. IsTrue yes → place.position < 2 ^ 63) }
{
    if !is_pending(tree, asserted, place) {
        return Ok(false);
    }
    let truth = truth_at(alloc, tree.rows(), graph, place.position)?;
    Ok(is_one(truth, place.negated))
}

/// The first candidate of the branch, in order of assertion. In version 2 the tree's Ands under the sign `~`
/// are Ors too.
pub(crate) fn first_candidate(
    alloc: Global,
    tree: &NumberedTree,
    graph: &OrderGraph,
    asserted: &Asserted,
) -> Result<Option<Place>, Memory>
    requires nodes { graph.now.nodes ≡ length tree.now.nodes }
    requires literals { graph.now.literals ≡ literals_of (spelled tree.now.rows) (positions asserted.now) }
    ensures { IfOk result (λ found. MatchOption found (AreChosen (spelled tree.now.rows) (positions asserted.now))
        (λ q. IsCandidate (spelled tree.now.rows) (positions asserted.now) (place_signed q))) }
{
    let holding = truths(alloc, tree.rows(), graph)?;
    for place in asserted.as_slice() {
        let truth = flag_at(&holding, place.position);
        if is_candidate(tree, asserted, *place, truth) {
            return Ok(Some(*place));
        }
    }
    Ok(None)
}
