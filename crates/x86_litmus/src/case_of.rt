ghost use Rattle.std.specs.Prelude.{◌≡◌, ◌≤◌, ◌++◌, ◌==◌, List, Some, map, filter, IfOk, OnOk};
ghost use Rattle.pc_common.specs.declared.limits.TheConstants.{MAX_CORE};
ghost use Rattle.pc_case.specs.Plain.{micro_op, kind_of_access, touch_of as touch_of_memop, stated_value, expectation};
ghost use Rattle.x86_litmus.specs.Said.{Instruction as PlainInstruction};
ghost use Rattle.x86_litmus.specs.Cases.{touch_of, kind_of_action, touched, op_of as op_of_spec, asked_value as asked_value_spec, test_order, numbered, stated, expectation_of, case_of as case_of_spec, types_of};
ghost use Rattle.x86_litmus.specs.Sound.{IsSound};
ghost use Rattle.x86_litmus.specs.Plain.{plain_action, plain_instruction, plain_asked, plain_said};

use super::faults::is_about;
use super::item::{Action, Instruction};
use super::locations::Locations;
use super::said::{Asked, Said};
use super::values::Values;
use pc_case::{
    Access, Address, Case, Expect, Memop, Op, OpId, Ops, Page, Stated, StatedValues, TypeNames,
};
use pc_common::{Listed, Memory, Value};
use std::alloc::Global;

/// The value that the condition gives a thread's register, or 0 where it gives none.
fn asked_value(asked: &[Asked<'_>], thread: u64, register: &[u8]) -> u64
    ensures { result ≡ asked_value_spec (map plain_asked asked.now) thread register.now }
{
    for equation in asked {
        if is_about(thread, register, equation) {
            return equation.value;
        }
    }
    0
}

fn type_names(alloc: Global, action: Action<'_>) -> Result<TypeNames, Memory>
    ensures { IfOk result (λ names. names ≡ types_of (plain_action action.entry)) }
{
    let mut names = TypeNames::new(alloc);
    if let Action::Fence = action {
        names.push(b"MFENCE")?;
    }
    Ok(names)
}

fn memop(number: u64, value: u64) -> Memop
    ensures { touch_of_memop (Some result) ≡ Some (touch_of number value) }
{
    Memop {
        va: Page {
            tag: number,
            index: 0,
        },
        pa: Address::Page {
            tag: number,
            index: 0,
        },
        value: Value::Number(value),
    }
}

/// What an instruction of a thread does, and to which location.
fn access_of(
    locations: &Locations<'_>,
    asked: &[Asked<'_>],
    thread: u64,
    action: Action<'_>,
) -> (Access, Option<Memop>)
    ensures kind { kind_of_access result.0 ≡ kind_of_action (plain_action action.entry) }
    ensures touch { touch_of_memop result.1 ≡ touched locations.now (map plain_asked asked.now) thread
        (plain_action action.entry) }
{
    match action {
        Action::Fence => (Access::Fence, None),
        Action::Store { location, value } => (
            Access::Write,
            Some(memop(locations.number(location.word), value)),
        ),
        Action::Load { register, location } => {
            let value = asked_value(asked, thread, register.word);
            (
                Access::Read,
                Some(memop(locations.number(location.word), value)),
            )
        }
    }
}

/// Instruction `g`.
fn op_of(
    alloc: Global,
    locations: &Locations<'_>,
    asked: &[Asked<'_>],
    g: u64,
    instruction: Instruction<'_>,
) -> Result<Op, Memory>
    requires { instruction.thread ≤ MAX_CORE }
    ensures { IfOk result (λ o. micro_op o
        ≡ op_of_spec locations.now (map plain_asked asked.now) g (plain_instruction instruction.entry)) }
{
    let thread = instruction.thread;
    let (access, memop) = access_of(locations, asked, thread, instruction.action);
    Ok(Op {
        id: OpId { g, n: 0 },
        core: thread as u8,
        thread,
        types: type_names(alloc, instruction.action)?,
        access,
        memop,
    })
}

/// Puts the instructions of a thread after the others.
fn push_thread(
    alloc: Global,
    locations: &Locations<'_>,
    said: &Said<'_>,
    thread: u64,
    ops: &mut Ops,
) -> Result<(), Memory>
    requires { thread ≤ MAX_CORE }
    ensures { OnOk result ((before : List PlainInstruction)
        → map micro_op ops.old ≡ numbered locations.now (plain_said said.now).asked 0 before
        → map micro_op ops.new ≡ numbered locations.now (plain_said said.now).asked 0
        (before ++ filter (λ i. i.thread == thread) (plain_said said.now).instructions)) }
{
    for instruction in &said.instructions {
        if instruction.thread == thread {
            let g = ops.len() as u64;
            ops.push(op_of(alloc, locations, &said.asked, g, *instruction)?)?;
        }
    }
    Ok(())
}

/// The micro-ops, column by column.
fn ops(alloc: Global, locations: &Locations<'_>, said: &Said<'_>) -> Result<Ops, Memory>
    requires { IsSound (plain_said said.now) }
    ensures { IfOk result (λ ops. map micro_op ops
        ≡ numbered locations.now (plain_said said.now).asked 0
        (test_order said.now.columns (plain_said said.now).instructions)) }
{
    let mut ops = Listed::new(alloc);
    for thread in 0..said.columns {
        push_thread(alloc, locations, said, thread, &mut ops)?;
    }
    Ok(ops)
}

fn stated_values(
    alloc: Global,
    locations: &Locations<'_>,
    values: &Values<'_>,
) -> Result<StatedValues, Memory>
    ensures { IfOk result (λ lines. map stated_value lines ≡ stated locations.now values.now) }
{
    let mut lines = Listed::new(alloc);
    for k in 0..values.len() {
        let (word, value) = values.entry(k);
        lines.push(Stated {
            pa: Address::Page {
                tag: locations.number(word),
                index: 0,
            },
            value: Value::Number(value),
        })?;
    }
    Ok(lines)
}

fn expect_of(is_denied: bool) -> Expect
    ensures { expectation result ≡ expectation_of is_denied }
{
    if is_denied {
        Expect::Forbidden
    } else {
        Expect::Unstated
    }
}

/// The case of a listing without a fault.
pub(crate) fn case_of(alloc: Global, said: &Said<'_>) -> Result<Case, Memory>
    requires { IsSound (plain_said said.now) }
    ensures { IfOk result (λ c. c ≡ case_of_spec (plain_said said.now)) }
{
    let locations = Locations::from_said(alloc, said)?;
    Case::new(
        alloc,
        ops(alloc, &locations, said)?,
        Listed::new(alloc),
        stated_values(alloc, &locations, &said.initial)?,
        stated_values(alloc, &locations, &said.final_values)?,
        expect_of(said.is_denied),
    )
}
