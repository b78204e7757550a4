ghost use Rattle.std.specs.Prelude.{◌<◌, Ok};
ghost use Rattle.pc_syntax.specs.Written.{written};
ghost use Rattle.pc_syntax.specs.MacroFaults.{count_fault, call_fault, body_fault, macro_fault};
ghost use Rattle.macro_expand.specs.Tables.{before, plain_macros, macro_at};
ghost use Rattle.macro_expand.specs.Faults.{Judges};

use super::fault::MacroFault;
use super::macros::{Macro, Macros};
use super::parameters::check_parameters;
use pc_syntax::{Args, Formula, Word, Words};
use std::alloc::Global;

/// Whether a macro is given as many arguments as it has parameters.
fn check_count(name: &Word, args: &Args, callee: &Macro<'_>) -> Result<(), MacroFault>
    ensures { Judges (count_fault name.now args.now (macro_at callee.now)) result }
{
    let found = args.len();
    let wanted = callee.parameters.len();
    if found != wanted {
        return Err(MacroFault::Arguments {
            at: name.at,
            found: found as u64,
            wanted: wanted as u64,
        });
    }
    Ok(())
}

/// Whether an expansion names one of the first `earlier` macros and fits it.
fn check_call(
    macros: &Macros<'_>,
    earlier: usize,
    name: &Word,
    args: &Args,
) -> Result<(), MacroFault>
    ensures { Judges (call_fault (before (plain_macros macros.now) earlier) name.now args.now) result }
{
    match macros.callee(name.name.as_slice(), earlier) {
        Some(callee) => check_count(name, args, &callee),
        None => Err(MacroFault::Unknown { at: name.at }),
    }
}

/// Whether each expansion in a formula names one of the first `earlier` macros and fits it.
///
/// It nests a call for each connective and quantifier above an atom.
pub(crate) fn check_body(
    macros: &Macros<'_>,
    earlier: usize,
    formula: &Formula,
) -> Result<(), MacroFault>
    ensures { Judges (body_fault (before (plain_macros macros.now) earlier) (written formula.now)) result }
{
    match formula {
        Formula::Not(body)
        | Formula::Forall { body, .. }
        | Formula::Exists { body, .. }
        | Formula::Bind { body, .. } => { check_body(macros, earlier, body) }
        Formula::And(left, right) | Formula::Or(left, right) | Formula::Implies(left, right) => {
            check_body(macros, earlier, left)?;
            check_body(macros, earlier, right)
        }
        Formula::Static { .. } | Formula::Nodes(_) | Formula::Edges(_) => Ok(()),
        Formula::Expand { name, args, .. } => check_call(macros, earlier, name, args),
    }
}

/// Whether a macro, after the first `earlier` ones, has a name of its own, parameters that differ and a
/// body that names earlier macros only.
pub(crate) fn check_macro(
    alloc: Global,
    macros: &Macros<'_>,
    earlier: usize,
    name: &Word,
    parameters: &Words,
    body: &Formula,
) -> Result<(), MacroFault>
    ensures { Judges (macro_fault (before (plain_macros macros.now) earlier)
        (record { name = name.now; parameters = parameters.now; body = written body.now })) result }
{
    if let Some(first) = macros.callee(name.name.as_slice(), earlier) {
        return Err(MacroFault::Again {
            at: name.at,
            first: first.name.at,
            again: name.at,
        });
    }
    check_parameters(alloc, parameters.as_slice())?;
    check_body(macros, earlier, body)
}
