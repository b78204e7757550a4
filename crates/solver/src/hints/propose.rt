ghost use Rattle.std.specs.Prelude.{◌≡◌, All, IfOk, length};
ghost use Rattle.solver.specs.Spelled.{spelled};
ghost use Rattle.solver.specs.Below.{IsRowBelow};
ghost use Rattle.solver.specs.Places.{IsSideIn};
ghost use Rattle.solver.specs.Opens.{IsFurther, IsSame, IsMarked};

use super::agenda::Agenda;
use super::alternatives::side_is_closed;
use super::standing::{CLOSED, LEFT_CLOSED, NEGATED, RIGHT_CLOSED, SETTLED, SIDES_STALE, Standing};
use super::walk::SideWalk;
use crate::tree::numbered_tree::NumberedTree;
use crate::tree::ors::{is_or, sides};
use crate::tree::place::Place;
use crate::tree::side::Side;
use order_graph::{Added, Mark, OrderGraph};
use pc_common::Memory;
use pc_ground::{Row, Version};
use std::sync::ledger::Ledger;
use undo_trail::Steps;

/// Whether the literals that the side asserts clash. Each is asked before the one before it is asserted, and so the last
/// one never is.
fn side_clashes<L: Ledger>(
    rows: &[Row<u32>],
    side: Side,
    graph: &mut OrderGraph,
    steps: &mut Steps<L>,
) -> Result<bool, Memory>
    requires { All (IsRowBelow graph.old.nodes) rows.now }
    ensures { IfOk result (λ _. IsFurther graph.old graph.new) }
{
    let mut walk = SideWalk::new(rows, side);
    let mut before = walk;
    for turn in 0..rows.len() {
        let Some(literal) = walk.next_literal(rows) else {
            return Ok(false);
        };
        if turn > 0 {
            if let Some(asked) = before.next_literal(rows) {
                if let Added::Clash(_) = graph.assert_literal(asked, steps)? {
                    return Ok(true);
                }
            }
        }
        if graph.would_clash(literal) {
            return Ok(true);
        }
    }
    Ok(false)
}

/// Whether the side is closed at once: whether its literals clash with those asserted, and once a side has failed whether
/// one of them does by itself. One that was closed is not asked again: on its branch a closed side stays closed. The graph
/// is as before.
fn ask_side<L: Ledger>(
    is_known: bool,
    has_failed: bool,
    tree: &NumberedTree,
    side: Side,
    mark: Mark,
    graph: &mut OrderGraph,
    steps: &mut Steps<L>,
) -> Result<bool, Memory>
    requires side { IsSideIn (spelled tree.now.rows) side }
    requires nodes { graph.old.nodes ≡ length tree.now.nodes }
    requires marked { IsMarked graph.old mark }
    ensures graph { IfOk result (λ _. IsSame graph.old graph.new) }
{
    if is_known {
        return Ok(true);
    }
    if has_failed {
        return Ok(side_is_closed(tree.rows(), graph, side));
    }
    let clashes = side_clashes(tree.rows(), side, graph, steps)?;
    graph.undo(mark, steps);
    Ok(clashes)
}

/// The standing with its closed sides as they are now. The left side is asked first, and in version 1 the right one
/// only if the left one is open.
fn with_sides<L: Ledger>(
    tree: &NumberedTree,
    version: Version,
    place: Place,
    standing: Standing,
    has_failed: bool,
    mark: Mark,
    graph: &mut OrderGraph,
    steps: &mut Steps<L>,
) -> Result<Standing, Memory>
    requires nodes { graph.old.nodes ≡ length tree.now.nodes }
    requires marked { IsMarked graph.old mark }
    ensures graph { IfOk result (λ _. IsSame graph.old graph.new) }
{
    if !is_or(tree, place) {
        return Ok(standing.asked(false, false, false));
    }
    let (left, right) = sides(tree, version, place);
    let is_known = standing.has(LEFT_CLOSED);
    let left_closed = ask_side(is_known, has_failed, tree, left, mark, graph, steps)?;
    if left_closed {
        if let Version::One = version {
            return Ok(standing.asked(true, false, true));
        }
    }
    let is_known = standing.has(RIGHT_CLOSED);
    let right_closed = ask_side(is_known, has_failed, tree, right, mark, graph, steps)?;
    let settled = match version {
        Version::One => right_closed,
        Version::Two => left_closed & right_closed,
    };
    Ok(standing.asked(left_closed, right_closed, settled))
}

/// The standing of the position, with its sides asked again where they are stale.
fn ask<L: Ledger>(
    tree: &NumberedTree,
    version: Version,
    position: usize,
    mark: Mark,
    graph: &mut OrderGraph,
    agenda: &mut Agenda,
    steps: &mut Steps<L>,
) -> Result<Standing, Memory>
    requires nodes { graph.old.nodes ≡ length tree.now.nodes }
    requires marked { IsMarked graph.old mark }
    ensures graph { IfOk result (λ _. IsSame graph.old graph.new) }
{
    let standing = agenda.look(tree.rows(), graph, position);
    if standing.has(SETTLED) || !standing.is_open_with(SIDES_STALE) {
        agenda.change(position, standing);
        return Ok(standing);
    }
    let place = Place {
        negated: standing.has(NEGATED),
        position,
    };
    let has_failed = agenda.has_failed();
    let asked = with_sides(
        tree, version, place, standing, has_failed, mark, graph, steps,
    )?;
    agenda.change(position, asked);
    Ok(asked)
}

/// The first choice of the agenda with enough sides closed at once: one in version 1, both in version 2. If none has
/// enough, the first with one.
fn first_closed<L: Ledger>(
    tree: &NumberedTree,
    version: Version,
    mark: Mark,
    graph: &mut OrderGraph,
    agenda: &mut Agenda,
    steps: &mut Steps<L>,
) -> Result<Option<Place>, Memory>
    requires nodes { graph.old.nodes ≡ length tree.now.nodes }
    requires marked { IsMarked graph.old mark }
    ensures graph { IfOk result (λ _. IsSame graph.old graph.new) }
{
    let mut from = 0;
    let mut one_sided = None;
    for _turn in 0..tree.len() {
        let Some(position) = agenda.ready.first_from(from) else {
            return Ok(one_sided);
        };
        let standing = ask(tree, version, position, mark, graph, agenda, steps)?;
        let place = Place {
            negated: standing.has(NEGATED),
            position,
        };
        if standing.is_open_with(SETTLED) {
            return Ok(Some(place));
        }
        if standing.is_open_with(CLOSED) && one_sided.is_none() {
            one_sided = Some(place);
        }
        from = position.saturating_add(1);
    }
    Ok(one_sided)
}

/// The choice that the agenda proposes to split: the first with enough sides closed at once or with one. Where none has one,
/// it is `first` until a side has failed. From then on it is the first whose alternatives are all as good as closed, or all
/// but one; and else the one with the newest record.
pub(crate) fn propose<L: Ledger>(
    tree: &NumberedTree,
    version: Version,
    first: Place,
    mark: Mark,
    graph: &mut OrderGraph,
    agenda: &mut Agenda,
    steps: &mut Steps<L>,
) -> Result<Place, Memory>
    requires nodes { graph.old.nodes ≡ length tree.now.nodes }
    requires marked { IsMarked graph.old mark }
    ensures graph { IfOk result (λ _. IsSame graph.old graph.new) }
{
    if let Some(place) = first_closed(tree, version, mark, graph, agenda, steps)? {
        return Ok(place);
    }
    if !agenda.has_failed() {
        return Ok(first);
    }
    if let Some(place) = agenda.first_forced(tree.rows(), graph) {
        return Ok(place);
    }
    Ok(agenda.newest(tree.rows(), graph, first))
}
