// The content faults, row by row of their table.
ghost use Rattle.std.specs.Prelude.{◌≡◌, map, length, ◌<◌, ◌^◌};
ghost use Rattle.std.specs.List.{list_any};
ghost use Rattle.pc_common.specs.Names.{same_name};
ghost use Rattle.x86_litmus.specs.Said.{is_load_of as is_load_of_spec, loads as loads_spec, is_about as is_about_spec, gives as gives_spec};
ghost use Rattle.x86_litmus.specs.Faults.{again as again_spec, thread_name, column_fault as column_fault_spec, reload as reload_spec};
ghost use Rattle.x86_litmus.specs.Faults.{instruction_fault as instruction_fault_spec, row_fault as row_fault_spec, register_fault as register_fault_spec, open_action as open_action_spec, open_fault as open_fault_spec};
ghost use Rattle.x86_litmus.specs.Plain.{plain_named, plain_action, plain_instruction, plain_asked, plain_fault};
ghost use Rattle.x86_litmus.specs.Judges.{word_of, is_load_by as is_load_by_spec};

use super::content_fault::ContentFault;
use super::item::{Action, Instruction, Named, ThreadNumber};
use super::said::Asked;
use super::values::Values;
use itoa::Buffer;
use pc_common::{FaultKind, MAX_CORE, MAX_OPS, Place, Value};

/// Whether a value is stated for the start of the test or for its end.
#[derive(Clone, Copy)]
pub(crate) enum When {
    Before,
    Behind,
}

fn fault(kind: FaultKind, place: Place) -> Option<ContentFault>
    ensures { result ≡ Some (record { kind = kind; place = place }) }
{
    Some(ContentFault { kind, place })
}

fn again_kind(when: When, first: u64, again: u64) -> FaultKind
    ensures { result ≡ word_of when (Value.Number first) (Value.Number again) }
{
    let first = Value::Number(first);
    let again = Value::Number(again);
    match when {
        When::Before => FaultKind::AgainInitial { first, again },
        When::Behind => FaultKind::AgainFinal { first, again },
    }
}

/// The fault of a value of a location, where these stand before it.
pub(crate) fn again_fault(
    when: When,
    values: &Values<'_>,
    name: Named<'_>,
    value: u64,
) -> Option<ContentFault>
    ensures { plain_fault result ≡ again_spec (word_of when) values.now (plain_named name.entry) value }
{
    let first = values.get(name.word)?;
    fault(again_kind(when, first, value), name.at)
}

/// Whether this is `P` and the column's number.
fn is_thread_name(word: &[u8], column: u64) -> bool
    ensures { result ≡ same_name word.now (thread_name column) }
{
    match word {
        [b'P', number @ ..] => number == Buffer::new().format(column).as_bytes(),
        _ => false,
    }
}

/// The fault of the name of the column of this number.
pub(crate) fn column_fault(column: u64, name: Named<'_>) -> Option<ContentFault>
    ensures { plain_fault result ≡ column_fault_spec column (plain_named name.entry) }
{
    if column > MAX_CORE {
        return fault(FaultKind::CoreNumber { number: column }, name.at);
    }
    if is_thread_name(name.word, column) {
        return None;
    }
    fault(FaultKind::X86Column, name.at)
}

fn is_load_of(register: &[u8], action: Action<'_>) -> bool
    ensures { result ≡ is_load_of_spec register.now (plain_action action.entry) }
{
    match action {
        Action::Load {
            register: loaded,
            ..
        } => register == loaded.word,
        Action::Fence | Action::Store { .. } => false,
    }
}

fn is_load_by(thread: u64, register: &[u8], instruction: &Instruction<'_>) -> bool
    ensures { result ≡ is_load_by_spec thread register.now (plain_instruction instruction.now) }
{
    instruction.thread == thread && is_load_of(register, instruction.action)
}

/// Whether the thread loads the register.
fn loads(instructions: &[Instruction<'_>], thread: u64, register: &[u8]) -> bool
    ensures { result ≡ loads_spec (map plain_instruction instructions.now) thread register.now }
{
    for instruction in instructions {
        if is_load_by(thread, register, instruction) {
            return true;
        }
    }
    false
}

pub(crate) fn is_about(thread: u64, register: &[u8], asked: &Asked<'_>) -> bool
    ensures { result ≡ is_about_spec thread register.now (plain_asked asked.now) }
{
    asked.thread == thread && register == asked.register
}

/// Whether the condition gives the thread's register a value.
fn gives(asked: &[Asked<'_>], thread: u64, register: &[u8]) -> bool
    ensures { result ≡ gives_spec (map plain_asked asked.now) thread register.now }
{
    for equation in asked {
        if is_about(thread, register, equation) {
            return true;
        }
    }
    false
}

fn reload(before: &[Instruction<'_>], instruction: Instruction<'_>) -> Option<ContentFault>
    ensures { plain_fault result
        ≡ reload_spec (map plain_instruction before.now) instruction.entry.thread
        (plain_action instruction.entry.action) }
{
    match instruction.action {
        Action::Load { register, .. } if loads(before, instruction.thread, register.word) => {
            fault(FaultKind::X86Reload, register.at)
        }
        _ => None,
    }
}

/// The fault of an instruction after these.
pub(crate) fn instruction_fault(
    before: &[Instruction<'_>],
    instruction: Instruction<'_>,
) -> Option<ContentFault>
    ensures { plain_fault result ≡ instruction_fault_spec (map plain_instruction before.now) instruction.entry.thread
        instruction.entry.at.offset (plain_action instruction.entry.action) }
{
    if before.len() >= MAX_OPS {
        let limit = MAX_OPS as u64;
        return fault(FaultKind::TooManyOps { limit }, instruction.at);
    }
    reload(before, instruction)
}

/// The fault of a line of this many cells.
pub(crate) fn row_fault(columns: u64, cells: u64, at: Place) -> Option<ContentFault>
    ensures { plain_fault result ≡ row_fault_spec columns cells at.offset }
{
    if cells == columns {
        return None;
    }
    fault(FaultKind::X86Column, at)
}

/// The fault of an equation of a thread's register.
pub(crate) fn register_fault(
    instructions: &[Instruction<'_>],
    asked: &[Asked<'_>],
    thread: ThreadNumber,
    register: Named<'_>,
) -> Option<ContentFault>
    ensures { plain_fault result ≡ register_fault_spec (map plain_instruction instructions.now)
        (map plain_asked asked.now) thread.number thread.at.offset (plain_named register.entry) }
{
    if !loads(instructions, thread.number, register.word) {
        return fault(FaultKind::X86Unloaded, thread.at);
    }
    if gives(asked, thread.number, register.word) {
        return fault(FaultKind::X86Again, thread.at);
    }
    None
}

fn open_action(asked: &[Asked<'_>], instruction: Instruction<'_>) -> Option<ContentFault>
    ensures { plain_fault result
        ≡ open_action_spec (map plain_asked asked.now) instruction.entry.thread
        (plain_action instruction.entry.action) }
{
    match instruction.action {
        Action::Load { register, .. } if !gives(asked, instruction.thread, register.word) => {
            fault(FaultKind::X86Open, register.at)
        }
        _ => None,
    }
}

/// The fault of the first load whose register has no equation.
pub(crate) fn open_fault(
    asked: &[Asked<'_>],
    instructions: &[Instruction<'_>],
) -> Option<ContentFault>
    ensures { plain_fault result
        ≡ open_fault_spec (map plain_asked asked.now) (map plain_instruction instructions.now) }
{
    for instruction in instructions {
        if let Some(fault) = open_action(asked, *instruction) {
            return Some(fault);
        }
    }
    None
}
