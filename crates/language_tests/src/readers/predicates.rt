//! What a case makes of each predicate.
ghost use Rattle.std.specs.Prelude.{◌≡◌, ◌<◌, [], ◌∷◌, length, replicate};
ghost use Rattle.pc_syntax.specs.declared.bound.Bound.TheVariants.{Op as bound_op, Core as bound_core};
ghost use Rattle.pc_syntax.specs.declared.pred.Takes.TheVariants.{Op as takes_op};
ghost use Rattle.pc_syntax.specs.Predicates.{takes_of};

use litmus_reader::read_case;
use pc_case::Case;
use pc_common::{Listed, Memory, Shared};
use pc_syntax::{Bound, ClosedArg, Env, Pred};
use static_preds::holds;
use std::alloc::Global;
use std::test::Fail;

/// A locked write of 5, a read of 0 in the same instruction, and a full fence after them, which depends
/// on the write. The one stated value is 5 at the end, at the page that the write and the read touch.
/// Then a read on another core; a read of an entry on another thread; and a write of the page that the
/// entry maps to, and a write of the entry, on another core and thread.
const CASE: &[u8] = b"Litmus2 \"h\".
Microop 0 0 0 0 (Write Locked (VA 1 2) (PA 1 2) (Data 5)).
Microop 0 0 0 1 (Read (VA 1 3) (PA 1 2) (Data 0)).
Microop 1 0 0 0 (Fence Full).
Microop 2 1 0 0 (Read (VA 1 2) (PA 1 2) (Data 5)).
Microop 3 0 1 0 (Read (VA 3 0) (Entry 3) (Maps 7 1 0)).
Microop 4 1 1 0 (Write (VA 3 0) (PA 7 0) (Data 1)).
Microop 5 1 1 0 (Write (VA 7 0) (Entry 3) (Maps 7 0 1)).
Relationship addr 0 0 -> 1 0.
Final (PA 1 2) 5.
";

/// A micro-op of the case, in its order.
#[derive(Clone, Copy)]
enum Letter {
    A,
    B,
    C,
    D,
    E,
    F,
    G,
}

use Letter::{A, B, C, D, E, F, G};

impl Letter {
    fn place(self) -> u8
        ensures { result < 7 }
    {
        match self {
            A => 0,
            B => 1,
            C => 2,
            D => 3,
            E => 4,
            F => 5,
            G => 6,
        }
    }
}

/// Slots for micro-ops: the first for `i`, the others for `j`.
fn slots(i: u8, j: u8) -> Env
    ensures { result.items ≡ bound_op i ∷ replicate 31 (bound_op j) }
{
    let mut bounds = [Bound::Op(j); 32];
    bounds[0] = Bound::Op(i);
    Env::from_array_in((), bounds)
}

/// Slots for the micro-op `i` and, inside it, for a core.
fn slots_with_core(i: u8, core: u8) -> Env
    ensures { result.items ≡ bound_op i ∷ replicate 31 (bound_core core) }
{
    let mut bounds = [Bound::Core(core); 32];
    bounds[0] = Bound::Op(i);
    Env::from_array_in((), bounds)
}

fn of_one(alloc: Global, case: &Case, pred: Pred, i: Letter) -> Result<bool, Memory>
    requires seven { length case.now.ops ≡ 7 }
    requires takes { takes_of pred ≡ takes_op ∷ [] }
{
    let args = Listed::from_vec(vec![in alloc; ClosedArg::Slot(0)]?);
    let place = i.place();
    Ok(holds(case, pred, &args, &slots(place, place)))
}

fn of_two(alloc: Global, case: &Case, pred: Pred, i: Letter, j: Letter) -> Result<bool, Memory>
    requires seven { length case.now.ops ≡ 7 }
    requires takes { takes_of pred ≡ takes_op ∷ takes_op ∷ [] }
{
    let args = Listed::from_vec(vec![in alloc; ClosedArg::Slot(0), ClosedArg::Slot(1)]?);
    Ok(holds(case, pred, &args, &slots(i.place(), j.place())))
}

fn of_none(alloc: Global, case: &Case, pred: Pred) -> bool
    requires { takes_of pred ≡ [] }
{
    holds(case, pred, &Listed::new(alloc), &slots(0, 0))
}

fn on_core(alloc: Global, case: &Case, core: u8, i: Letter) -> Result<bool, Memory>
    requires seven { length case.now.ops ≡ 7 }
    requires core { core < 64 }
{
    let args = Listed::from_vec(vec![in alloc; ClosedArg::Core(core), ClosedArg::Slot(0)]?);
    let place = i.place();
    Ok(holds(case, Pred::OnCore, &args, &slots(place, place)))
}

/// The same of a variable that stands for this core.
fn on_core_of_slot(alloc: Global, case: &Case, core: u8, i: Letter) -> Result<bool, Memory>
    requires { length case.now.ops ≡ 7 }
{
    let args = Listed::from_vec(vec![in alloc; ClosedArg::Slot(1), ClosedArg::Slot(0)]?);
    let slots = slots_with_core(i.place(), core);
    Ok(holds(case, Pred::OnCore, &args, &slots))
}

fn of_type(alloc: Global, case: &Case, name: &[u8], i: Letter) -> Result<bool, Memory>
    requires { length case.now.ops ≡ 7 }
{
    let name = ClosedArg::Plain(Shared::from_listed(Listed::from_vec(name.to_vec(alloc)?))?);
    let args = Listed::from_vec(vec![in alloc; name, ClosedArg::Slot(0)]?);
    let place = i.place();
    Ok(holds(case, Pred::AccessType, &args, &slots(place, place)))
}

fn of_kind(alloc: Global, case: &Case, kind: &[u8], i: Letter, j: Letter) -> Result<bool, Memory>
    requires { length case.now.ops ≡ 7 }
{
    let kind = ClosedArg::Plain(Shared::from_listed(Listed::from_vec(kind.to_vec(alloc)?))?);
    let args = Listed::from_vec(vec![in alloc; kind, ClosedArg::Slot(0), ClosedArg::Slot(1)]?);
    Ok(holds(
        case,
        Pred::HasDependency,
        &args,
        &slots(i.place(), j.place()),
    ))
}

/// What `holds` answers, with the plain name where the predicate takes one. Where it takes a core, `0` and
/// `1` are the number of one, and `c0` and `c1` a variable that stands for one. None where it takes another
/// number of micro-ops.
fn ask(
    alloc: Global,
    case: &Case,
    pred: Pred,
    name: &[u8],
    ops: &[Letter],
) -> Result<Option<bool>, Memory>
    requires { length case.now.ops ≡ 7 }
{
    Ok(match (pred, ops) {
        (Pred::True | Pred::False, []) => Some(of_none(alloc, case, pred)),
        (Pred::AccessType, [i]) => Some(of_type(alloc, case, name, *i)?),
        (Pred::OnCore, [i]) => match name {
            b"0" => Some(on_core(alloc, case, 0, *i)?),
            b"1" => Some(on_core(alloc, case, 1, *i)?),
            b"c0" => Some(on_core_of_slot(alloc, case, 0, *i)?),
            b"c1" => Some(on_core_of_slot(alloc, case, 1, *i)?),
            _ => None,
        },
        (Pred::HasDependency, [i, j]) => Some(of_kind(alloc, case, name, *i, *j)?),
        (
            Pred::IsAnyRead
            | Pred::IsAnyWrite
            | Pred::IsAnyFence
            | Pred::DataFromInitialStateAtPA
            | Pred::DataFromFinalStateAtPA
            | Pred::MarkedAccessed
            | Pred::MarkedDirty,
            [i],
        ) => Some(of_one(alloc, case, pred, *i)?),
        (
            Pred::SameCore
            | Pred::SameThread
            | Pred::SameMicroop
            | Pred::SameInstruction
            | Pred::SameIntra
            | Pred::ProgramOrder
            | Pred::SameVirtualAddress
            | Pred::SamePhysicalAddress
            | Pred::SameVirtualTag
            | Pred::SamePhysicalTag
            | Pred::SameIndex
            | Pred::SameData
            | Pred::EntryOf
            | Pred::MapsTagOf,
            [i, j],
        ) => Some(of_two(alloc, case, pred, *i, *j)?),
        _ => None,
    })
}

/// A predicate, a plain name or a core, the micro-ops, and whether it is true of them. What is asked of
/// addresses and values is false of the fence.
const ROWS: &[(Pred, &'static [u8], &'static [Letter], bool)] = &[
    (Pred::True, b"", &[], true),
    (Pred::False, b"", &[], false),
    (Pred::IsAnyRead, b"", &[B], true),
    (Pred::IsAnyRead, b"", &[A], false),
    (Pred::IsAnyWrite, b"", &[A], true),
    (Pred::IsAnyWrite, b"", &[C], false),
    (Pred::IsAnyFence, b"", &[C], true),
    (Pred::IsAnyFence, b"", &[B], false),
    (Pred::AccessType, b"Locked", &[A], true),
    (Pred::AccessType, b"Locked", &[C], false),
    (Pred::AccessType, b"Locked", &[B], false),
    (Pred::OnCore, b"0", &[A], true),
    (Pred::OnCore, b"1", &[A], false),
    (Pred::OnCore, b"1", &[D], true),
    (Pred::OnCore, b"0", &[D], false),
    (Pred::OnCore, b"c0", &[A], true),
    (Pred::OnCore, b"c1", &[A], false),
    (Pred::OnCore, b"c1", &[D], true),
    (Pred::OnCore, b"c0", &[D], false),
    (Pred::SameCore, b"", &[A, C], true),
    (Pred::SameCore, b"", &[A, E], true),
    (Pred::SameCore, b"", &[A, D], false),
    (Pred::SameThread, b"", &[A, C], true),
    (Pred::SameThread, b"", &[A, D], true),
    (Pred::SameThread, b"", &[A, E], false),
    (Pred::SameMicroop, b"", &[B, B], true),
    (Pred::SameMicroop, b"", &[A, B], false),
    (Pred::SameInstruction, b"", &[A, B], true),
    (Pred::SameInstruction, b"", &[A, C], false),
    (Pred::SameIntra, b"", &[A, C], true),
    (Pred::SameIntra, b"", &[A, B], false),
    (Pred::ProgramOrder, b"", &[A, C], true),
    (Pred::ProgramOrder, b"", &[A, B], false),
    (Pred::ProgramOrder, b"", &[C, A], false),
    (Pred::ProgramOrder, b"", &[F, G], true),
    (Pred::ProgramOrder, b"", &[A, D], false),
    (Pred::ProgramOrder, b"", &[A, E], false),
    (Pred::SameVirtualAddress, b"", &[A, D], true),
    (Pred::SameVirtualAddress, b"", &[A, B], false),
    (Pred::SameVirtualAddress, b"", &[C, C], false),
    (Pred::SamePhysicalAddress, b"", &[A, B], true),
    (Pred::SamePhysicalAddress, b"", &[A, C], false),
    (Pred::SamePhysicalAddress, b"", &[E, G], true),
    (Pred::SamePhysicalAddress, b"", &[E, F], false),
    (Pred::SameVirtualTag, b"", &[A, B], true),
    (Pred::SameVirtualTag, b"", &[C, C], false),
    (Pred::SamePhysicalTag, b"", &[A, B], true),
    (Pred::SamePhysicalTag, b"", &[C, C], false),
    (Pred::SamePhysicalTag, b"", &[E, G], false),
    (Pred::SameIndex, b"", &[B, B], true),
    (Pred::SameIndex, b"", &[A, B], false),
    (Pred::SameIndex, b"", &[C, C], false),
    (Pred::SameData, b"", &[B, B], true),
    (Pred::SameData, b"", &[A, B], false),
    (Pred::SameData, b"", &[C, C], false),
    (Pred::SameData, b"", &[E, E], true),
    (Pred::SameData, b"", &[E, G], false),
    (Pred::SameData, b"", &[E, F], false),
    (Pred::DataFromInitialStateAtPA, b"", &[B], true),
    (Pred::DataFromInitialStateAtPA, b"", &[A], false),
    (Pred::DataFromInitialStateAtPA, b"", &[C], false),
    (Pred::DataFromInitialStateAtPA, b"", &[E], false),
    (Pred::DataFromFinalStateAtPA, b"", &[A], true),
    (Pred::DataFromFinalStateAtPA, b"", &[B], false),
    (Pred::DataFromFinalStateAtPA, b"", &[C], false),
    (Pred::HasDependency, b"addr", &[A, C], true),
    (Pred::HasDependency, b"addr", &[C, A], false),
    (Pred::HasDependency, b"data", &[A, C], false),
    (Pred::EntryOf, b"", &[E, F], true),
    (Pred::EntryOf, b"", &[G, F], true),
    (Pred::EntryOf, b"", &[F, E], false),
    (Pred::EntryOf, b"", &[E, A], false),
    (Pred::EntryOf, b"", &[E, C], false),
    (Pred::MapsTagOf, b"", &[E, F], true),
    (Pred::MapsTagOf, b"", &[E, A], false),
    (Pred::MapsTagOf, b"", &[E, G], false),
    (Pred::MapsTagOf, b"", &[A, F], false),
    (Pred::MarkedAccessed, b"", &[E], true),
    (Pred::MarkedAccessed, b"", &[G], false),
    (Pred::MarkedAccessed, b"", &[A], false),
    (Pred::MarkedAccessed, b"", &[C], false),
    (Pred::MarkedDirty, b"", &[G], true),
    (Pred::MarkedDirty, b"", &[E], false),
    (Pred::MarkedDirty, b"", &[C], false),
];

/// Whether each row has the case's answer.
fn are_answers(alloc: Global, case: &Case) -> Result<bool, Memory> {
    if case.ops() != 7 {
        return Ok(false);
    }
    for (pred, name, ops, want) in ROWS {
        if ask(alloc, case, *pred, name, ops)? != Some(*want) {
            return Ok(false);
        }
    }
    Ok(true)
}

/// The same of the case that a text is.
fn are_answers_of(alloc: Global, text: &[u8]) -> Result<bool, Memory> {
    if text.len() > 4000 {
        return Ok(false);
    }
    match read_case(alloc, text) {
        Ok(case) => are_answers(alloc, &case),
        Err(_) => Ok(false),
    }
}

#[test]
fn each_predicate_says_what_the_case_says(rt: HostRuntime) -> Result<(), Fail> {
    assert!(rt; are_answers_of(rt.alloc(), CASE)?);
    Ok(())
}

/// The case's dependency twice more.
const AGAIN: &[u8] = b"Relationship addr 0 0 -> 1 0.
Relationship addr 0 0 -> 1 0.
";

#[test]
fn a_dependency_that_is_stated_again_changes_no_answer(rt: HostRuntime) -> Result<(), Fail> {
    let mut text = CASE.to_vec(rt.alloc())?;
    text.extend_from_slice(AGAIN)?;
    assert!(rt; are_answers_of(rt.alloc(), &text)?);
    Ok(())
}
