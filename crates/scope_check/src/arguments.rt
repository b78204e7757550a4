ghost use Rattle.std.specs.Prelude.{◌≡◌, IfOk, IfErr, None, length};
ghost use Rattle.pc_syntax.specs.declared.closed_term.ClosedArg.TheVariants.{Core as core_arg};
ghost use Rattle.pc_syntax.specs.declared.pred.Takes.TheVariants.{Core as takes_core};
ghost use Rattle.pc_syntax.specs.Predicates.{takes_of};
ghost use Rattle.pc_syntax.specs.Fault.{first_fault};
ghost use Rattle.pc_syntax.specs.NameFaults.{variable_fault, core_fault, argument_fault, arguments_fault, value_fault};
ghost use Rattle.pc_syntax.specs.Closing.{slot_of, closing_of_value, closing_of_bound, closing_of_arg, closing_of_args};
ghost use Rattle.scope_check.specs.FirstFault.{Answers};

use super::fault::NameFault;
use super::scope::Scope;
use pc_common::{MAX_CORE, Place};
use pc_syntax::{Arg, Args, ClosedArg, ClosedArgs, Names, Pred, Sort, Takes, Word};
use std::alloc::Global;

/// The slot of a variable of the sort that is asked for.
pub(crate) fn variable_slot(scope: &Scope<'_>, wanted: Sort, word: &Word) -> Result<u8, NameFault>
    ensures ok { IfOk result (λ slot. (variable_fault scope.now wanted word.now ≡ None)
        × (slot ≡ slot_of scope.now word.now)) }
    ensures err { IfErr result (Answers (variable_fault scope.now wanted word.now)) }
{
    let Some(variable) = scope.find(word.name.as_slice()) else {
        return Err(NameFault::Unbound { at: word.at });
    };
    if variable.sort != wanted {
        return Err(NameFault::WrongSort { at: word.at });
    }
    Ok(variable.slot)
}

/// A core by its number.
fn core_numbered(number: u64, at: Place) -> Result<ClosedArg, NameFault>
    ensures ok { IfOk result (λ arg. (core_fault number at ≡ None) × (arg ≡ core_arg number)) }
    ensures err { IfErr result (Answers (core_fault number at)) }
{
    if number > MAX_CORE {
        return Err(NameFault::CoreNumber { at, number });
    }
    Ok(ClosedArg::Core(number as u8))
}

/// An argument of an expansion: a variable of either sort, or a core's number.
fn close_value(scope: &Scope<'_>, arg: &Arg) -> Result<ClosedArg, NameFault>
    ensures ok { IfOk result (λ closed. (value_fault scope.now arg.now ≡ None)
        × (closed ≡ closing_of_value scope.now arg.now)) }
    ensures err { IfErr result (Answers (value_fault scope.now arg.now)) }
{
    match arg {
        Arg::Word(word) => match scope.find(word.name.as_slice()) {
            Some(variable) => Ok(ClosedArg::Slot(variable.slot)),
            None => Err(NameFault::Unbound { at: word.at }),
        },
        Arg::Number(number, at) => core_numbered(*number, *at),
    }
}

/// An argument where a core is asked for: a variable, or a number.
pub(crate) fn close_core(scope: &Scope<'_>, arg: &Arg) -> Result<ClosedArg, NameFault>
    ensures ok { IfOk result (λ closed. (argument_fault scope.now takes_core arg.now ≡ None)
        × (closed ≡ closing_of_value scope.now arg.now)) }
    ensures err { IfErr result (Answers (argument_fault scope.now takes_core arg.now)) }
{
    match arg {
        Arg::Word(word) => Ok(ClosedArg::Slot(variable_slot(scope, Sort::Core, word)?)),
        Arg::Number(number, at) => core_numbered(*number, *at),
    }
}

/// An argument where this is taken. A plain name is shared.
fn close_argument(scope: &Scope<'_>, takes: Takes, arg: &Arg) -> Result<ClosedArg, NameFault>
    ensures ok { IfOk result (λ closed. (argument_fault scope.now takes arg.now ≡ None)
        × (closed ≡ closing_of_arg scope.now takes arg.now)) }
    ensures err { IfErr result (Answers (argument_fault scope.now takes arg.now)) }
{
    match (takes, arg) {
        (Takes::Op, Arg::Word(word)) => {
            Ok(ClosedArg::Slot(variable_slot(scope, Sort::Microop, word)?))
        }
        (Takes::Core, _) => close_core(scope, arg),
        (Takes::Plain, Arg::Word(word)) => Ok(ClosedArg::Plain(word.name.share()?)),
        (_, Arg::Number(_, at)) => Err(NameFault::WrongSort { at: *at }),
    }
}

/// The arguments of a predicate, of which there are as many as it takes.
pub(crate) fn close_arguments(
    alloc: Global,
    scope: &Scope<'_>,
    pred: Pred,
    args: &Args,
) -> Result<ClosedArgs, NameFault>
    requires { length args.now ≡ length (takes_of pred) }
    ensures ok { let takes = takes_of pred in
        IfOk result (λ closed. (arguments_fault scope.now takes args.now ≡ None)
        × (closed ≡ closing_of_args scope.now takes args.now)) }
    ensures err { IfErr result (Answers (arguments_fault scope.now (takes_of pred) args.now)) }
{
    let mut closed = ClosedArgs::new(alloc);
    for k in 0..args.len() {
        closed.push(close_argument(scope, pred.takes(k), args.get(k))?)?;
    }
    Ok(closed)
}

/// The arguments that names are bound to: all are judged, and as many are kept as there are names.
pub(crate) fn close_values(
    alloc: Global,
    scope: &Scope<'_>,
    names: &Names,
    args: &Args,
) -> Result<ClosedArgs, NameFault>
    ensures ok { let fault = first_fault (value_fault scope.now) args.now in
        IfOk result (λ closed. (fault ≡ None) × (closed ≡ closing_of_bound scope.now names.now args.now)) }
    ensures err { IfErr result (Answers (first_fault (value_fault scope.now) args.now)) }
{
    let mut closed = ClosedArgs::new(alloc);
    for k in 0..args.len() {
        let value = close_value(scope, args.get(k))?;
        if k < names.len() {
            closed.push(value)?;
        }
    }
    Ok(closed)
}
