ghost use Rattle.std.specs.Prelude.{◌≡◌, ◌<◌, ◌≤◌, ◌%◌, ◌==◌, Some, All, length, map, drop, get_or, slice_get, IfOk};
ghost use Rattle.std.specs.Option.{option_map};
ghost use Rattle.pc_common.specs.Case.{number};
ghost use Rattle.pc_case.specs.Plain.{plain_value, touch_of, micro_op};
ghost use Rattle.pattern_reader.specs.Rows.{left_by, row_values, value_for as value_for_spec, reading, filled};
ghost use Rattle.pattern_reader.specs.Reads.{values_in, op_in, HasValues, touch_with, value_at_place};

use super::values::Values;
use pc_case::{Dependencies, Memop, Op, Ops, StatedValues};
use pc_common::{Listed, Memory, Value};
use std::alloc::Global;

/// An open read: its micro-op, by place in test order, and what it may read.
pub(crate) struct OpenRead {
    pub(crate) op: usize,
    pub(crate) values: Values,
}

// By hand: docs/DECISIONS.md, "Drops are written by hand".
impl Drop for OpenRead {
    fn drop(self) {
        let OpenRead { op: _, values: _ } = self;
    }
}

/// What is left of a row's number when the reads from this place on, the last first, have taken their digits.
fn left_by_reads(reads: &[OpenRead], from: usize, row: usize) -> usize
    requires some { All HasValues reads.now }
    requires within { from ≤ length reads.now }
    ensures { result ≡ left_by (map values_in (drop from reads.now)) row }
{
    let mut left = row;
    let mut at = reads.len();
    while at > from {
        at -= 1;
        left /= reads[at].values.len();
    }
    left
}

/// The read at this place.
fn read_at(reads: &[OpenRead], k: usize) -> &OpenRead
    requires { k < length reads.now }
    ensures { slice_get reads.now k ≡ Some result.now }
{
    &reads[k]
}

/// The value of a read by what is left of a row's number.
#[tactic(auto, using(crate::proofs::Digits::value_read))]
fn digit_value(read: &OpenRead, left: usize) -> Value
    requires { HasValues read.now }
    ensures { plain_value result ≡ get_or (values_in read.now) (left % length (values_in read.now)) (number 0) }
{
    *read.values.get(left % read.values.len())
}

/// The value of the read at place `k` among these, in a row.
pub(crate) fn value_in(reads: &[OpenRead], row: usize, k: usize) -> Value
    requires some { All HasValues reads.now }
    requires within { k < length reads.now }
    ensures { slice_get (row_values (map values_in reads.now) row) k ≡ Some (plain_value result) }
{
    let left = left_by_reads(reads, k + 1, row);
    digit_value(read_at(reads, k), left)
}

/// Whether the read is that of this micro-op.
fn is_at(read: &OpenRead, place: usize) -> bool
    ensures { result ≡ (read.now.op == place) }
{
    read.op == place
}

/// The value of the read at place `k` among these, if it is that of this micro-op.
#[tactic(auto, using(crate::proofs::Digits::is_at_place, crate::proofs::Digits::not_at_place))]
fn value_if(reads: &[OpenRead], row: usize, k: usize, place: usize) -> Option<Value>
    requires some { All HasValues reads.now }
    requires within { k < length reads.now }
    ensures { option_map plain_value result
        ≡ value_at_place (map op_in reads.now) (row_values (map values_in reads.now) row) k place }
{
    if is_at(read_at(reads, k), place) {
        Some(value_in(reads, row, k))
    } else {
        None
    }
}

/// The value that a row has for the micro-op at this place, if it is an open read.
fn value_for(reads: &[OpenRead], row: usize, place: usize) -> Option<Value>
    requires { All HasValues reads.now }
    ensures { option_map plain_value result
        ≡ value_for_spec (map op_in reads.now) (row_values (map values_in reads.now) row) place }
{
    for k in 0..reads.len() {
        if let Some(value) = value_if(reads, row, k, place) {
            return Some(value);
        }
    }
    None
}

/// What is touched, with this value if there is one.
fn memop_reading(memop: Option<Memop>, value: Option<Value>) -> Option<Memop>
    ensures { touch_of result ≡ touch_with (option_map plain_value value) (touch_of memop) }
{
    match memop {
        None => None,
        Some(memop) => match value {
            None => Some(memop),
            Some(value) => Some(Memop {
                va: memop.va,
                pa: memop.pa,
                value,
            }),
        },
    }
}

/// The micro-op once more, with this value if there is one.
fn op_reading(alloc: Global, op: &Op, value: Option<Value>) -> Result<Op, Memory>
    ensures { IfOk result (λ o. micro_op o ≡ reading (option_map plain_value value) (micro_op op.now)) }
{
    let mut copy = op.copy(alloc)?;
    copy.memop = memop_reading(op.memop, value);
    Ok(copy)
}

/// The micro-ops once more, with the values of a row in the open reads.
pub(crate) fn row_ops(
    alloc: Global,
    ops: &[Op],
    reads: &[OpenRead],
    row: usize,
) -> Result<Ops, Memory>
    requires { All HasValues reads.now }
    ensures { IfOk result (λ copies. map micro_op copies
        ≡ filled (value_for_spec (map op_in reads.now) (row_values (map values_in reads.now) row)) 0
        (map micro_op ops.now)) }
{
    let mut copies = Listed::new(alloc);
    for place in 0..ops.len() {
        copies.push(op_reading(alloc, &ops[place], value_for(reads, row, place))?)?;
    }
    Ok(copies)
}

/// The dependencies once more.
pub(crate) fn copy_dependencies(
    alloc: Global,
    dependencies: &Dependencies,
) -> Result<Dependencies, Memory>
    ensures { IfOk result (λ c. c ≡ dependencies.now) }
{
    let mut copies = Listed::new(alloc);
    for dependency in dependencies.as_slice() {
        copies.push(dependency.copy(alloc)?)?;
    }
    Ok(copies)
}

/// The stated values once more.
pub(crate) fn copy_stated(alloc: Global, lines: &StatedValues) -> Result<StatedValues, Memory>
    ensures { IfOk result (λ c. c ≡ lines.now) }
{
    let mut copies = Listed::new(alloc);
    for line in lines.as_slice() {
        copies.push(*line)?;
    }
    Ok(copies)
}
