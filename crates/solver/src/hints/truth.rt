ghost use Rattle.std.specs.Prelude.{All};
ghost use Rattle.order_graph.specs.Ways.{IsBelow};
ghost use Rattle.solver.specs.Below.{IsRowBelow};

use super::walk::skip_at;
use crate::tree::ors::literal_at;
use order_graph::OrderGraph;
use pc_ground::{Literal, Row, RowKind};

/// Whether something is true in the world that the graph's literals generate.
#[derive(Clone, Copy)]
pub(crate) enum Truth {
    No,
    Now,
    /// It stays true whatever else is asserted.
    ForGood,
}

/// Whether the literal is true now: for good, where it asserts something.
fn literal_truth(graph: &OrderGraph, literal: Literal<u32>) -> Truth
    requires { IsBelow graph.now.nodes literal }
{
    if !graph.true_now(literal) {
        return Truth::No;
    }
    match literal {
        Literal::Node(_) | Literal::Edge(_, _) => Truth::ForGood,
        Literal::NoNode(_) | Literal::NoEdge(_, _) => Truth::Now,
    }
}

/// What was told of a position.
fn told(truths: &[bool], p: usize) -> bool {
    p < truths.len() && truths[p]
}

/// Whether the row's tree is true now, where `truths` tells it of the positions after it.
fn row_holds(rows: &[Row<u32>], graph: &OrderGraph, truths: &[bool], p: usize) -> bool
    requires { All (IsRowBelow graph.now.nodes) rows.now }
{
    if p >= rows.len() {
        return false;
    }
    let left = p.saturating_add(1);
    let right = left.saturating_add(skip_at(rows, left));
    match rows[p].kind {
        RowKind::True => true,
        RowKind::False => false,
        RowKind::Lit(literal) => graph.true_now(literal),
        RowKind::And => told(truths, left) & told(truths, right),
        RowKind::Or => told(truths, left) | told(truths, right),
    }
}

/// Whether the tree at `root` is true now: one loop over its rows, from the last one to its root.
fn tree_holds(rows: &[Row<u32>], graph: &OrderGraph, truths: &mut [bool], root: usize) -> bool
    requires { All (IsRowBelow graph.now.nodes) rows.now }
{
    let count = skip_at(rows, root);
    for k in 0..count {
        let p = root.saturating_add(count - 1 - k);
        let holds = row_holds(rows, graph, truths, p);
        if p < truths.len() {
            truths[p] = holds;
        }
    }
    told(truths, root)
}

/// Whether the part at `root` is true now, under this sign.
fn part_truth(
    rows: &[Row<u32>],
    graph: &OrderGraph,
    truths: &mut [bool],
    negated: bool,
    root: usize,
) -> Truth
    requires { All (IsRowBelow graph.now.nodes) rows.now }
{
    if let Some(literal) = literal_at(rows, negated, root) {
        return literal_truth(graph, literal);
    }
    if tree_holds(rows, graph, truths, root) == negated {
        Truth::No
    } else {
        Truth::Now
    }
}

/// Whether the Or at `p` is true now, under this sign. `truths` is room for it.
pub(crate) fn or_truth(
    rows: &[Row<u32>],
    graph: &OrderGraph,
    truths: &mut [bool],
    negated: bool,
    p: usize,
) -> Truth
    requires { All (IsRowBelow graph.now.nodes) rows.now }
{
    let left = p.saturating_add(1);
    let right = left.saturating_add(skip_at(rows, left));
    let first = part_truth(rows, graph, truths, negated, left);
    if let Truth::ForGood = first {
        return first;
    }
    match part_truth(rows, graph, truths, negated, right) {
        Truth::No => first,
        second => second,
    }
}
