ghost use Rattle.std.specs.Prelude.{◌≡◌, ◌<◌, ◌≤◌, ◌+◌, ◌^◌, ◌↔◌, ℕ, true, All, IfOk, IsTrue, Some, length, slice_get, slice_range};
ghost use Rattle.pc_ground.specs.Tree.{Tree};
ghost use Rattle.pc_ground.specs.Refutes.{subtree_at};
ghost use Rattle.solver.specs.Spelled.{spelled, IsSpelled};
ghost use Rattle.solver.specs.Below.{IsRowBelow};
ghost use Rattle.solver.specs.Met.{IsMet};
ghost use Rattle.solver.specs.Flags.{flag, AreTruths, SomeChildren, AreChildFlags, IsTreePart};

use crate::tree::rows::row_at;
use order_graph::OrderGraph;
use pc_common::Memory;
use pc_ground::{Row, RowKind};
use std::alloc::Global;

/// The flag at `p`, or false past the end.
pub(crate) fn flag_at(flags: &[bool], p: usize) -> bool
    ensures { result ≡ flag flags.now p }
{
    p < flags.len() && flags[p]
}

/// The flags of the two children of the And or Or at `p`.
#[tactic(auto, using(crate::proofs::AreTruths::children_inside, crate::proofs::AreTruths::right_is))]
fn child_flags(rows: &[Row<u32>], flags: &[bool], p: usize) -> (bool, bool)
    requires tree { IsSpelled rows.now }
    requires count { length flags.now ≡ length rows.now }
    requires inner { SomeChildren (spelled rows.now) p }
    requires inside { p < 2 ^ 63 }
    ensures { AreChildFlags (spelled rows.now) flags.now p result }
{
    let left = p + 1;
    let right = left + row_at(rows, left).skip;
    (flags[left], flags[right])
}

/// Whether the subtree at `p` is true now, where `truths` tells it of the positions after it.
fn is_true_at(rows: &[Row<u32>], truths: &[bool], graph: &OrderGraph, p: usize) -> bool
    requires tree { IsSpelled rows.now }
    requires count { length truths.now ≡ length rows.now }
    requires below { All (IsRowBelow graph.now.nodes) rows.now }
    requires inside { p < length rows.now }
    requires behind { AreTruths (spelled rows.now) graph.now.literals (p + 1) truths.now }
    ensures { (s : Tree ℕ) → subtree_at (spelled rows.now) p ≡ Some s → IsTrue result ↔ IsMet graph.now.literals s }
{
    match row_at(rows, p).kind {
        RowKind::True => true,
        RowKind::False => false,
        RowKind::Lit(literal) => graph.true_now(literal),
        RowKind::And => {
            let (left, right) = child_flags(rows, truths, p);
            left & right
        }
        RowKind::Or => {
            let (left, right) = child_flags(rows, truths, p);
            left | right
        }
    }
}

/// Which subtrees are true in the world that the graph's literals generate: one loop, from the last
/// position to the root.
pub(crate) fn truths(
    alloc: Global,
    rows: &[Row<u32>],
    graph: &OrderGraph,
) -> Result<Vec<bool>, Memory>
    requires tree { IsSpelled rows.now }
    requires below { All (IsRowBelow graph.now.nodes) rows.now }
    ensures all { IfOk result (λ flags. length flags.items ≡ length rows.now) }
    ensures truths { IfOk result (λ flags. AreTruths (spelled rows.now) graph.now.literals 0 flags.items) }
{
    let mut truths = vec![in alloc; false; rows.len()]?;
    for k in 0..rows.len() {
        let p = rows.len() - 1 - k;
        truths[p] = is_true_at(rows, &truths, graph, p);
    }
    Ok(truths)
}

/// Where the tree at `p` ends.
fn end_of(rows: &[Row<u32>], p: usize) -> usize
    requires tree { IsSpelled rows.now }
    requires inside { p < length rows.now }
    ensures part { IsTreePart (spelled rows.now) p (slice_range rows.now p result) }
    ensures low { p ≤ result }
    ensures high { result ≤ length rows.now }
{
    p + row_at(rows, p).skip
}

/// Whether the tree of these rows is true now.
fn whole_truth(alloc: Global, rows: &[Row<u32>], graph: &OrderGraph) -> Result<bool, Memory>
    requires tree { IsSpelled rows.now }
    requires below { All (IsRowBelow graph.now.nodes) rows.now }
    ensures { IfOk result (λ truth. IsTrue truth ↔ IsMet graph.now.literals (spelled rows.now)) }
{
    let flags = truths(alloc, rows, graph)?;
    Ok(flag_at(&flags, 0))
}

/// Whether the subtree at `p` is true in the world that the graph's literals generate.
pub(crate) fn truth_at(
    alloc: Global,
    rows: &[Row<u32>],
    graph: &OrderGraph,
    p: usize,
) -> Result<bool, Memory>
    requires tree { IsSpelled rows.now }
    requires below { All (IsRowBelow graph.now.nodes) rows.now }
    requires inside { p < length rows.now }
    ensures { IfOk result (λ truth. (s : Tree ℕ) → subtree_at (spelled rows.now) p ≡ Some s
        → IsTrue truth ↔ IsMet graph.now.literals s) }
{
    let end = end_of(rows, p);
    whole_truth(alloc, &rows[p..end], graph)
}
