ghost use Rattle.std.specs.Prelude.{◌≡◌, ◌<◌, ℕ, All, IfOk, Some, length, map, slice_get};
ghost use Rattle.pc_common.specs.World.{Node as PlainNode};
ghost use Rattle.pc_ground.specs.declared.row.Row.{Row as PlainRow};
ghost use Rattle.pc_ground.specs.Keys.{key_node, renamed, renamed_row, renamed_kind, literal_node, row_node};
ghost use Rattle.order_graph.specs.Ways.{IsBelow};
ghost use Rattle.solver.specs.Renamed.{node_at, rows_over};
ghost use Rattle.solver.specs.Below.{IsRowBelow};
ghost use Rattle.solver.specs.Known.{IsNumbered, IsLiteralKnown, IsRowKnown};

use pc_common::Memory;
use pc_ground::{Flat, Literal, NodeKey, Numbering, Row, RowKind};
use std::alloc::Global;

/// The number of a key that has one.
#[tactic(auto, using(crate::proofs::IsKnown::number_named))]
fn number_of(numbering: &Numbering, key: NodeKey) -> u32
    requires { IsNumbered numbering.now (key_node key) }
    ensures is { node_at numbering.now result ≡ key_node key }
    ensures below { result < length numbering.now }
{
    match numbering.number(key) {
        Some(number) => number,
        None => 0,
    }
}

/// A literal over numbers.
fn number_literal(numbering: &Numbering, literal: Literal<NodeKey>) -> Literal<u32>
    requires { IsLiteralKnown numbering.now (literal_node literal) }
    ensures is { renamed (node_at numbering.now) result ≡ literal_node literal }
    ensures below { IsBelow (length numbering.now) result }
{
    match literal {
        Literal::Node(a) => Literal::Node(number_of(numbering, a)),
        Literal::Edge(a, b) => Literal::Edge(number_of(numbering, a), number_of(numbering, b)),
        Literal::NoNode(a) => Literal::NoNode(number_of(numbering, a)),
        Literal::NoEdge(a, b) => Literal::NoEdge(number_of(numbering, a), number_of(numbering, b)),
    }
}

/// A row over numbers.
fn number_row(numbering: &Numbering, row: Row<NodeKey>) -> Row<u32>
    requires { IsRowKnown numbering.now (row_node row) }
    ensures is { renamed_row (node_at numbering.now) result ≡ row_node row }
    ensures below { IsRowBelow (length numbering.now) result }
{
    let kind = match row.kind {
        RowKind::True => RowKind::True,
        RowKind::False => RowKind::False,
        RowKind::Lit(literal) => RowKind::Lit(number_literal(numbering, literal)),
        RowKind::And => RowKind::And,
        RowKind::Or => RowKind::Or,
    };
    Row {
        kind,
        skip: row.skip,
    }
}

/// The rows of the tree over the numbers of its nodes.
pub(crate) fn number_rows(
    alloc: Global,
    tree: &Flat,
    numbering: &Numbering,
) -> Result<Vec<Row<u32>>, Memory>
    requires known { (p : ℕ) (r : PlainRow PlainNode) → slice_get tree.now p ≡ Some r → IsRowKnown numbering.now r }
    ensures is { IfOk result (λ rows. rows_over numbering.now rows.items ≡ tree.now) }
    ensures below { IfOk result (λ rows. All (IsRowBelow (length numbering.now)) rows.items) }
{
    let mut rows = Vec::new(alloc);
    for k in 0..tree.len() {
        rows.push(number_row(numbering, tree.row(k)))?;
    }
    Ok(rows)
}

/// The keys by their numbers.
#[tactic(auto, using(crate::proofs::IsKnown::map_one_more))]
pub(crate) fn keys_by_number(alloc: Global, numbering: &Numbering) -> Result<Vec<NodeKey>, Memory>
    ensures { IfOk result (λ keys. map key_node keys.items ≡ numbering.now) }
{
    let mut keys = Vec::new(alloc);
    for k in 0..numbering.len() {
        keys.push(numbering.key(k))?;
    }
    Ok(keys)
}
