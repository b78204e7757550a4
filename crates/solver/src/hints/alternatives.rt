//! Asks which sides are closed from the first failure on: literal by literal, so that nothing is asserted in trial. Of an
//! Or in a side the alternatives are asked (`Walk`), one Or deep.
ghost use Rattle.std.specs.Prelude.{All};
ghost use Rattle.order_graph.specs.Ways.{IsBelow};
ghost use Rattle.solver.specs.Below.{IsRowBelow};

use super::clashing_pairs::pair_clashes;
use super::walk::{SideWalk, Walk};
use crate::tree::side::Side;
use order_graph::OrderGraph;
use pc_ground::{Literal, Row};

/// Whether a literal of the side would clash.
pub(crate) fn side_is_closed(rows: &[Row<u32>], graph: &OrderGraph, side: Side) -> bool
    requires { All (IsRowBelow graph.now.nodes) rows.now }
{
    let mut walk = SideWalk::new(rows, side);
    for _ in 0..rows.len() {
        let Some(literal) = walk.next_literal(rows) else {
            return false;
        };
        if graph.would_clash(literal) {
            return true;
        }
    }
    false
}

/// Whether the literal clashes together with one of the part, of which none would by itself.
fn clashes_beside(rows: &[Row<u32>], graph: &OrderGraph, literal: Literal<u32>, part: Walk) -> bool
    requires below { All (IsRowBelow graph.now.nodes) rows.now }
    requires literal { IsBelow graph.now.nodes literal }
{
    let mut walk = part;
    for _ in 0..rows.len() {
        let Some(other) = walk.next_literal(rows) else {
            return false;
        };
        if pair_clashes(graph, literal, other) {
            return true;
        }
    }
    false
}

/// Whether a literal of the part would clash, by itself or together with one of the part `beside` it.
fn is_closed_beside(rows: &[Row<u32>], graph: &OrderGraph, part: Walk, beside: Walk) -> bool
    requires { All (IsRowBelow graph.now.nodes) rows.now }
{
    let mut walk = part;
    for _ in 0..rows.len() {
        let Some(literal) = walk.next_literal(rows) else {
            return false;
        };
        if graph.would_clash(literal) || clashes_beside(rows, graph, literal, beside) {
            return true;
        }
    }
    false
}

/// Whether each alternative of the Or at `p` is closed beside the part.
fn or_is_closed_beside(
    rows: &[Row<u32>],
    graph: &OrderGraph,
    negated: bool,
    p: usize,
    beside: Walk,
) -> bool
    requires { All (IsRowBelow graph.now.nodes) rows.now }
{
    let mut walk = Walk::alternatives(rows, negated, p);
    for _ in 0..rows.len() {
        let Some(root) = walk.next_alternative(rows) else {
            return true;
        };
        if !is_closed_beside(rows, graph, Walk::new(rows, negated, root), beside) {
            return false;
        }
    }
    true
}

/// Whether the alternative at `root` is as good as closed: a literal of it would clash, or two of them together, or it
/// asserts an Or each of whose alternatives is closed beside it.
fn is_as_good_as_closed(rows: &[Row<u32>], graph: &OrderGraph, negated: bool, root: usize) -> bool
    requires { All (IsRowBelow graph.now.nodes) rows.now }
{
    let part = Walk::new(rows, negated, root);
    if is_closed_beside(rows, graph, part, part) {
        return true;
    }
    let mut walk = part;
    for _ in 0..rows.len() {
        let Some(p) = walk.next_or(rows) else {
            return false;
        };
        if or_is_closed_beside(rows, graph, negated, p, part) {
            return true;
        }
    }
    false
}

/// How many alternatives of the Or at `p` are not closed, up to `limit`: not as good as closed, where that is asked.
pub(crate) fn count_open(
    rows: &[Row<u32>],
    graph: &OrderGraph,
    negated: bool,
    p: usize,
    limit: usize,
    in_full: bool,
) -> usize
    requires { All (IsRowBelow graph.now.nodes) rows.now }
{
    let mut walk = Walk::alternatives(rows, negated, p);
    let mut count: usize = 0;
    for _ in 0..rows.len() {
        if count >= limit {
            return count;
        }
        let Some(root) = walk.next_alternative(rows) else {
            return count;
        };
        let is_closed = if in_full {
            is_as_good_as_closed(rows, graph, negated, root)
        } else {
            let denied = None;
            side_is_closed(
                rows,
                graph,
                Side {
                    negated,
                    root,
                    denied,
                },
            )
        };
        if !is_closed {
            count = count.saturating_add(1);
        }
    }
    count
}
