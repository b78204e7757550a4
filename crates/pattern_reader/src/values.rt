ghost use Rattle.std.specs.Prelude.{◌≡◌, [], ◌∷◌, map, slice_get, IfOk, OnOk};
ghost use Rattle.std.specs.List.{list_any};
ghost use Rattle.std.specs.Option.{option_map};
ghost use Rattle.pc_common.specs.Addresses.{same_address, same_value, initial_at};
ghost use Rattle.pc_common.specs.Case.{number, write};
ghost use Rattle.pc_common.specs.declared.value.Value.TheVariants.{Number, Entry as EntryValue};
ghost use Rattle.pc_case.specs.Plain.{address_at, plain_value, touch_of, micro_op};
ghost use Rattle.pc_case.specs.declared.address.Address.TheVariants.{Page, Entry};
ghost use Rattle.litmus_reader.specs.Lists.{case_by};
ghost use Rattle.pattern_reader.specs.Rows.{written_at as written_at_spec, once_more, touch_of_op};
ghost use Rattle.pattern_reader.specs.Rows.{values_at as values_at_spec, values_of as values_of_spec};

use litmus_reader::CaseLists;
use pc_case::{Access, Address, Memop, Op};
use pc_common::{Listed, Memory, Value};
use std::alloc::Global;

/// Values in the order in which a read takes them.
pub(crate) type Values = Listed<Value>;

fn is_same_address(a: Address, b: Address) -> bool
    ensures { result ≡ same_address (address_at a) (address_at b) }
{
    match a {
        Address::Page { tag, index } => is_page(b, tag, index),
        Address::Entry { tag } => is_entry_of(b, tag),
    }
}

fn is_page(a: Address, page_tag: u64, page_index: u64) -> bool
    ensures { result ≡ same_address (address_at (Page page_tag page_index)) (address_at a) }
{
    match a {
        Address::Page { tag, index } => page_tag == tag && page_index == index,
        Address::Entry { .. } => false,
    }
}

fn is_entry_of(a: Address, entry_tag: u64) -> bool
    ensures { result ≡ same_address (address_at (Entry entry_tag)) (address_at a) }
{
    match a {
        Address::Page { .. } => false,
        Address::Entry { tag } => entry_tag == tag,
    }
}

fn is_same_value(a: Value, b: Value) -> bool
    ensures { result ≡ same_value (plain_value a) (plain_value b) }
{
    match a {
        Value::Number(number) => is_number(b, number),
        Value::Entry {
            tag,
            accessed,
            dirty,
        } => is_entry(b, tag, accessed, dirty),
    }
}

fn is_number(a: Value, number: u64) -> bool
    ensures { result ≡ same_value (plain_value (Number number)) (plain_value a) }
{
    match a {
        Value::Number(other) => number == other,
        Value::Entry { .. } => false,
    }
}

fn is_entry(a: Value, entry_tag: u64, entry_accessed: u64, entry_dirty: u64) -> bool
    ensures { result ≡ same_value (plain_value (EntryValue entry_tag entry_accessed entry_dirty)) (plain_value a) }
{
    match a {
        Value::Number(_) => false,
        Value::Entry {
            tag,
            accessed,
            dirty,
        } => entry_tag == tag && (entry_accessed == accessed && entry_dirty == dirty),
    }
}

/// The value at this address at the start.
fn initial_value(lists: &CaseLists, pa: Address) -> Value
    ensures { plain_value result ≡ initial_at (case_by lists.now) (address_at pa) }
{
    for line in lists.initial.as_slice() {
        if is_same_address(line.pa, pa) {
            return line.value;
        }
    }
    pa.default_value()
}

/// The value that the micro-op writes at this address, if it does.
fn written_value(op: &Op, pa: Address) -> Option<Value>
    ensures { option_map plain_value result
        ≡ written_at_spec (address_at pa) (micro_op op.now).kind (micro_op op.now).touch }
{
    match op.access {
        Access::Write => touched_value(op.memop, pa),
        Access::Read | Access::Fence => None,
    }
}

/// The value of what is touched, if it is at this address.
fn touched_value(memop: Option<Memop>, pa: Address) -> Option<Value>
    ensures { option_map plain_value result ≡ written_at_spec (address_at pa) write (touch_of memop) }
{
    match memop {
        None => None,
        Some(memop) => {
            if is_same_address(memop.pa, pa) {
                Some(memop.value)
            } else {
                None
            }
        }
    }
}

fn has_value(values: &[Value], value: Value) -> bool
    ensures { result ≡ list_any (same_value (plain_value value)) (map plain_value values.now) }
{
    for other in values {
        if is_same_value(value, *other) {
            return true;
        }
    }
    false
}

/// Puts the value after the others, unless it is one of them.
fn add_once(values: &mut Values, value: Option<Value>) -> Result<(), Memory>
    ensures { OnOk result (map plain_value values.new
        ≡ once_more (map plain_value values.old) (option_map plain_value value)) }
{
    match value {
        None => Ok(()),
        Some(value) => {
            if has_value(values.as_slice(), value) {
                Ok(())
            } else {
                values.push(value)
            }
        }
    }
}

/// The initial value at this address, then the values that are written there, each once.
fn values_at(alloc: Global, lists: &CaseLists, pa: Address) -> Result<Values, Memory>
    ensures { IfOk result (λ values. map plain_value values ≡ values_at_spec (case_by lists.now) (address_at pa)) }
{
    let mut values = Listed::new(alloc);
    values.push(initial_value(lists, pa))?;
    for op in lists.ops.as_slice() {
        add_once(&mut values, written_value(op, pa))?;
    }
    Ok(values)
}

/// What the micro-op at this place touches, if there is one and it does.
fn memop_of(lists: &CaseLists, op: usize) -> Option<Memop>
    ensures { touch_of result ≡ touch_of_op (slice_get (map micro_op lists.now.ops) op) }
{
    if op < lists.ops.len() {
        lists.ops.get(op).memop
    } else {
        None
    }
}

/// The one value 0.
fn zero(alloc: Global) -> Result<Values, Memory>
    ensures { IfOk result (λ values. map plain_value values ≡ number 0 ∷ []) }
{
    let mut values = Listed::new(alloc);
    values.push(Value::Number(0))?;
    Ok(values)
}

/// What the micro-op at this place may read.
pub(crate) fn values_of(alloc: Global, lists: &CaseLists, op: usize) -> Result<Values, Memory>
    ensures { IfOk result (λ values. map plain_value values ≡ values_of_spec (case_by lists.now) op) }
{
    match memop_of(lists, op) {
        Some(memop) => values_at(alloc, lists, memop.pa),
        None => zero(alloc),
    }
}
