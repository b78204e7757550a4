ghost use Rattle.std.specs.Prelude.{◌≡◌, ◌<◌, ◌^◌, ◌++◌, ◌∷◌, [], List, not, length, take, IfOk};
ghost use Rattle.pc_ground.specs.Tree.{size_of};
ghost use Rattle.pc_ground.specs.Refutes.{literals_of};
ghost use Rattle.solver.specs.Spelled.{spelled};
ghost use Rattle.solver.specs.Below.{IsRowBelow};
ghost use Rattle.solver.specs.Places.{asserted_at, denied_positions, side_positions, IsDeniedIn, IsSideIn};
ghost use Rattle.solver.specs.Opens.{positions, IsFurther, HasAsserted, HasAddedRow, HasAssertedRow};
ghost use Rattle.solver.specs.Branches.{HasSameRest, HasGoneBack};
ghost use Rattle.solver.specs.declared.search.later.Later.{Later as PlainLater};

use super::asserted::Asserted;
use super::branch::Branch;
use crate::tree::numbered_tree::NumberedTree;
use crate::tree::place::Place;
use crate::tree::side::Side;
use order_graph::{Added, Clash, OrderGraph};
use pc_common::Memory;
use pc_ground::{Row, RowKind};
use std::sync::ledger::Ledger;
use undo_trail::Steps;

/// Asserts the literal of a row, if it is one's.
fn add_row<L: Ledger>(
    row: Row<u32>,
    graph: &mut OrderGraph,
    steps: &mut Steps<L>,
) -> Result<Added, Memory>
    requires below { IsRowBelow graph.old.nodes row }
    ensures { IfOk result (HasAddedRow row graph.old graph.new) }
{
    match row.kind {
        RowKind::Lit(literal) => graph.assert_literal(literal, steps),
        _ => Ok(Added::Kept),
    }
}

/// Asserts the literal of a row, if it is one's, and then its place.
fn enter_row<L: Ledger>(
    row: Row<u32>,
    place: Place,
    graph: &mut OrderGraph,
    asserted: &mut Asserted,
    steps: &mut Steps<L>,
) -> Result<Option<Clash>, Memory>
    requires below { IsRowBelow graph.old.nodes row }
    requires small { place.position < 2 ^ 63 }
    ensures further { IfOk result (λ _. IsFurther graph.old graph.new) }
    ensures entered { IfOk result (λ found.
        HasAssertedRow row place graph.old asserted.old graph.new asserted.new found) }
{
    if let Added::Clash(clash) = add_row(row, graph, steps)? {
        return Ok(Some(clash));
    }
    asserted.push(place)?;
    Ok(None)
}

/// Asserts what the part at `root` asserts under this sign, in preorder, up to the first clash. The walk is
/// a loop, which goes past the whole of an Or.
#[tactic(auto, using(crate::proofs::HasAsserted::length_spelled))]
fn enter_part<L: Ledger>(
    tree: &NumberedTree,
    negated: bool,
    root: usize,
    graph: &mut OrderGraph,
    asserted: &mut Asserted,
    steps: &mut Steps<L>,
) -> Result<Option<Clash>, Memory>
    requires root { root < size_of (spelled tree.now.rows) }
    requires nodes { graph.old.nodes ≡ length tree.now.nodes }
    requires literals { graph.old.literals ≡ literals_of (spelled tree.now.rows) (positions asserted.old) }
    ensures further { IfOk result (λ _. IsFurther graph.old graph.new) }
    ensures kept { IfOk result (λ _. take (length asserted.old) asserted.new ≡ asserted.old) }
    ensures entered { IfOk result (λ found. HasAsserted (spelled tree.now.rows)
        (asserted_at (spelled tree.now.rows) negated root)
        asserted.old graph.new asserted.new found) }
{
    let end = root + tree.row(root).skip;
    let mut at = root;
    while at < end {
        let row = tree.row(at).negate_if(negated);
        let place = Place {
            negated,
            position: at,
        };
        if let Some(clash) = enter_row(row, place, graph, asserted, steps)? {
            return Ok(Some(clash));
        }
        at += row.stride();
    }
    Ok(None)
}

/// Asserts that the left side is false, where this side says so.
fn enter_denied<L: Ledger>(
    tree: &NumberedTree,
    side: Side,
    graph: &mut OrderGraph,
    asserted: &mut Asserted,
    steps: &mut Steps<L>,
) -> Result<Option<Clash>, Memory>
    requires denied { IsDeniedIn (spelled tree.now.rows) side.denied }
    requires nodes { graph.old.nodes ≡ length tree.now.nodes }
    requires literals { graph.old.literals ≡ literals_of (spelled tree.now.rows) (positions asserted.old) }
    ensures further { IfOk result (λ _. IsFurther graph.old graph.new) }
    ensures kept { IfOk result (λ _. take (length asserted.old) asserted.new ≡ asserted.old) }
    ensures entered { IfOk result (λ found. HasAsserted (spelled tree.now.rows)
        (denied_positions (spelled tree.now.rows) side.negated side.denied)
        asserted.old graph.new asserted.new found) }
{
    match side.denied {
        Some(left) => enter_part(tree, !side.negated, left, graph, asserted, steps),
        None => Ok(None),
    }
}

/// Asserts what the side asserts, up to the first clash: first that the left side is false, where it says
/// so, then its own part.
fn enter_side<L: Ledger>(
    tree: &NumberedTree,
    side: Side,
    graph: &mut OrderGraph,
    asserted: &mut Asserted,
    steps: &mut Steps<L>,
) -> Result<Option<Clash>, Memory>
    requires side { IsSideIn (spelled tree.now.rows) side }
    requires nodes { graph.old.nodes ≡ length tree.now.nodes }
    requires literals { graph.old.literals ≡ literals_of (spelled tree.now.rows) (positions asserted.old) }
    ensures further { IfOk result (λ _. IsFurther graph.old graph.new) }
    ensures kept { IfOk result (λ _. take (length asserted.old) asserted.new ≡ asserted.old) }
    ensures entered { IfOk result (λ found. HasAsserted (spelled tree.now.rows)
        (side_positions (spelled tree.now.rows) side)
        asserted.old graph.new asserted.new found) }
{
    if let Some(clash) = enter_denied(tree, side, graph, asserted, steps)? {
        return Ok(Some(clash));
    }
    enter_part(tree, side.negated, side.root, graph, asserted, steps)
}

/// Asserts what the side asserts, as `enter_side` does, on the first open branch.
pub(crate) fn enter_next<L: Ledger>(
    tree: &NumberedTree,
    side: Side,
    branch: &mut Branch,
    steps: &mut Steps<L>,
) -> Result<Option<Clash>, Memory>
    requires side { IsSideIn (spelled tree.now.rows) side }
    requires nodes { branch.old.graph.nodes ≡ length tree.now.nodes }
    requires literals { branch.old.graph.literals
        ≡ literals_of (spelled tree.now.rows) (positions branch.old.asserted) }
    ensures further { IfOk result (λ _. IsFurther branch.old.graph branch.new.graph) }
    ensures kept { IfOk result (λ _.
        take (length branch.old.asserted) branch.new.asserted ≡ branch.old.asserted) }
    ensures entered { IfOk result (λ found. HasAsserted (spelled tree.now.rows)
        (side_positions (spelled tree.now.rows) side)
        branch.old.asserted branch.new.graph branch.new.asserted found) }
    ensures rest { HasSameRest branch.old branch.new }
{
    enter_side(tree, side, &mut branch.graph, &mut branch.asserted, steps)
}

/// Goes back to the next branch that waits, where one does: to the asserted positions and the literals that it
/// begins with. Returns the side that it is to assert.
pub(crate) fn go_back<L: Ledger>(branch: &mut Branch, steps: &mut Steps<L>) -> Option<Side>
    requires { (ls : List PlainLater) (l : PlainLater)
        → branch.old.later.items ≡ ls ++ l ∷ [] → l.mark < length branch.old.graph.marks }
    ensures { HasGoneBack branch.old branch.new result }
{
    let next = branch.later.pop()?;
    branch.asserted.cut(next.count);
    branch.agenda.go_back(next.count);
    branch.graph.undo(next.mark, steps);
    Some(next.side)
}
