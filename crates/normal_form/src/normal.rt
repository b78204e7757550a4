ghost use Rattle.std.specs.Prelude.{◌≡◌, [], IfOk, OnOk, map, reverse};
ghost use Rattle.pc_common.specs.World.{Node as PlainNode};
ghost use Rattle.pc_ground.specs.Tree.{Tree};
ghost use Rattle.pc_ground.specs.Rows.{rows_of};
ghost use Rattle.pc_ground.specs.Keys.{row_node};
ghost use Rattle.pc_ground.specs.PlainGround.{plain_ground, normal};
ghost use Rattle.normal_form.specs.Parts.{IsWritten};

use super::part::Part;
use super::rows::write;
use pc_common::{Listed, Memory};
use pc_ground::{Flat, Ground, NodeKey, Row, RowKind};
use std::alloc::Global;

/// Writes the row of a constant that is the whole tree.
fn close(part: Part, rows: &mut Vec<Row<NodeKey>>) -> Result<(), Memory>
    ensures { OnOk result ((t : Tree PlainNode) → IsWritten [] (map row_node rows.old.items) part t
        → map row_node rows.new.items ≡ reverse (rows_of t)) }
{
    if let Part::Constant(value) = part {
        let kind = if value { RowKind::True } else { RowKind::False };
        rows.push(Row { kind, skip: 1 })?;
    }
    Ok(())
}

/// The formula's tree as rows in preorder: negations are pushed down to the literals, and constants are
/// folded, so that one is left only where it is the whole tree.
///
/// Time and memory are in proportion to the formula. The only other result is Memory.
pub fn normalise(alloc: Global, ground: &Ground) -> Result<Flat, Memory>
    ensures { IfOk result (λ f. f ≡ rows_of (normal (plain_ground ground.now))) }
{
    let mut rows = Vec::new(alloc);
    let part = write(alloc, ground, true, &mut rows)?;
    close(part, &mut rows)?;
    rows.reverse();
    Ok(Flat::new(Listed::from_vec(rows)))
}
