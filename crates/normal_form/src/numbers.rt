ghost use Rattle.std.specs.Prelude.{◌≡◌, IfOk, OnOk};
ghost use Rattle.pc_common.specs.World.{Node as PlainNode};
ghost use Rattle.pc_ground.specs.Tree.{Tree};
ghost use Rattle.pc_ground.specs.Rows.{rows_of};
ghost use Rattle.pc_ground.specs.Keys.{row_node};
ghost use Rattle.pc_ground.specs.Numbers.{numbered};
ghost use Rattle.normal_form.specs.RowNodes.{numbering_after, nodes_of_row};

use pc_common::Memory;
use pc_ground::{Flat, Literal, NodeKey, Numbering, Row, RowKind};
use std::alloc::Global;

/// Numbers the nodes of a row, an edge's first node before its second.
fn see_row(numbering: &mut Numbering, row: Row<NodeKey>) -> Result<(), Memory>
    ensures { OnOk result (numbering.new ≡ numbering_after numbering.old (nodes_of_row (row_node row))) }
{
    match row.kind {
        RowKind::Lit(Literal::Node(a) | Literal::NoNode(a)) => numbering.see(a),
        RowKind::Lit(Literal::Edge(a, b) | Literal::NoEdge(a, b)) => {
            numbering.see(a)?;
            numbering.see(b)
        }
        RowKind::True | RowKind::False | RowKind::And | RowKind::Or => Ok(()),
    }
}

/// The nodes of the tree's literals, each once, numbered from 0 as they are first seen in preorder.
///
/// One look-up a node of a literal; memory is in proportion to the nodes. The only other result is Memory.
pub fn number(alloc: Global, tree: &Flat) -> Result<Numbering, Memory>
    ensures { IfOk result (λ n. (t : Tree PlainNode) → tree.now ≡ rows_of t → n ≡ numbered t) }
{
    let mut numbering = Numbering::new(alloc);
    for k in 0..tree.len() {
        see_row(&mut numbering, tree.row(k))?;
    }
    Ok(numbering)
}
