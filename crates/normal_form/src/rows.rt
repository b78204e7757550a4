ghost use Rattle.std.specs.Prelude.{◌≡◌, ◌≤◌, ◌+◌, ◌++◌, ℕ, List, length, map, IfOk, vec_len};
ghost use Rattle.pc_common.specs.World.{Node as PlainNode};
ghost use Rattle.pc_ground.specs.Tree.{Tree};
ghost use Rattle.pc_ground.specs.Keys.{row_node};
ghost use Rattle.pc_ground.specs.declared.row.Row.{Row as PlainRow};
ghost use Rattle.pc_ground.specs.PlainGround.{plain_ground, pushed, folded};
ghost use Rattle.normal_form.specs.Spine.{end_tree, constant_tree, junction_of};
ghost use Rattle.normal_form.specs.Parts.{part_of, backward, IsWritten};

use super::joint::Junction;
use super::part::Part;
use super::spine::{End, spine_of};
use pc_common::Memory;
use pc_ground::{Ground, NodeKey, Row, RowKind};
use std::alloc::Global;

/// Writes the row of an end that is a literal.
fn write_end(end: End, rows: &mut Vec<Row<NodeKey>>) -> Result<Part, Memory>
    ensures { IfOk result
        (λ part. IsWritten (map row_node rows.old.items) (map row_node rows.new.items) part (end_tree end)) }
{
    match end {
        End::Constant(value) => Ok(Part::Constant(value)),
        End::Lit(literal) => {
            rows.push(Row {
                kind: RowKind::Lit(literal),
                skip: 1,
            })?;
            Ok(Part::Rows)
        }
    }
}

/// Folds a constant beside another part, whose rows begin at `start`: the constant goes away, or the rows do.
fn fold_constant(
    junction: Junction,
    value: bool,
    other: Part,
    start: usize,
    rows: &mut Vec<Row<NodeKey>>,
) -> Part
    ensures left { (first : List (PlainRow PlainNode)) (t : Tree PlainNode) → length first ≡ start
        → IsWritten first (map row_node rows.old.items) other t
        → IsWritten first (map row_node rows.new.items) result (junction_of junction (constant_tree value) t) }
    ensures right { (first : List (PlainRow PlainNode)) (t : Tree PlainNode) → length first ≡ start
        → IsWritten first (map row_node rows.old.items) other t
        → IsWritten first (map row_node rows.new.items) result (junction_of junction t (constant_tree value)) }
{
    if value == junction.neutral() {
        return other;
    }
    rows.truncate(start);
    Part::Constant(value)
}

/// Joins two parts, of which the right one was written first, from `start` on.
fn join(
    junction: Junction,
    left: Part,
    right: Part,
    start: usize,
    rows: &mut Vec<Row<NodeKey>>,
) -> Result<Part, Memory>
    requires { start ≤ vec_len rows.old }
    ensures { IfOk result (λ part. (first : List (PlainRow PlainNode)) (a b : Tree PlainNode) → length first ≡ start
        → right ≡ part_of b
        → IsWritten (first ++ backward b) (map row_node rows.old.items) left a
        → IsWritten first (map row_node rows.new.items) part (junction_of junction a b)) }
{
    match (left, right) {
        (Part::Constant(value), _) => Ok(fold_constant(junction, value, right, start, rows)),
        (Part::Rows, Part::Constant(value)) => Ok(fold_constant(
            junction, value, left, start, rows,
        )),
        (Part::Rows, Part::Rows) => {
            rows.push(Row {
                kind: junction.kind(),
                skip: rows.len() - start + 1,
            })?;
            Ok(Part::Rows)
        }
    }
}

/// Writes the rows of a formula, or of its negation where it does not hold, the last row first. The right
/// side is a loop, from its end to the root; a call nests for a left side alone. The list is reversed once at the
/// end, and a folded constant writes no row.
pub(crate) fn write(
    alloc: Global,
    ground: &Ground,
    holds: bool,
    rows: &mut Vec<Row<NodeKey>>,
) -> Result<Part, Memory>
    ensures { IfOk result (λ part.
        IsWritten (map row_node rows.old.items) (map row_node rows.new.items) part
        (folded (pushed holds (plain_ground ground.now)))) }
{
    let spine = spine_of(alloc, ground, holds)?;
    let mut joints = spine.joints;
    let start = rows.len();
    let mut part = write_end(spine.end, rows)?;
    while let Some(joint) = joints.pop() {
        let left = write(alloc, joint.left, joint.holds, rows)?;
        part = join(joint.junction, left, part, start, rows)?;
    }
    Ok(part)
}
