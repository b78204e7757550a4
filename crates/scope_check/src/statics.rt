ghost use Rattle.std.specs.Prelude.{◌≡◌, IfOk, IfErr, None, unwrap_or};
ghost use Rattle.pc_syntax.specs.declared.pred.Pred.TheVariants.{True};
ghost use Rattle.pc_syntax.specs.Predicates.{pred_with_name};
ghost use Rattle.pc_syntax.specs.NameFaults.{static_fault};
ghost use Rattle.pc_syntax.specs.Closed.{plain_closed};
ghost use Rattle.pc_syntax.specs.Closing.{closing_of_static};
ghost use Rattle.scope_check.specs.FirstFault.{Answers};

use super::arguments::close_arguments;
use super::fault::NameFault;
use super::scope::Scope;
use pc_syntax::{Args, ClosedFormula, Pred, Word};
use std::alloc::Global;

/// A predicate: its name is judged, then how many arguments it has, then the arguments.
pub(crate) fn close_static(
    alloc: Global,
    scope: &Scope<'_>,
    word: &Word,
    args: &Args,
) -> Result<ClosedFormula, NameFault>
    ensures ok { let pred = unwrap_or (pred_with_name word.now.name) True in
        IfOk result (λ closed. (static_fault scope.now word.now args.now ≡ None)
        × (plain_closed closed ≡ closing_of_static scope.now pred args.now)) }
    ensures err { IfErr result (Answers (static_fault scope.now word.now args.now)) }
{
    let Some(pred) = Pred::of_name(word.name.as_slice()) else {
        return Err(NameFault::UnknownPredicate { at: word.at });
    };
    let found = args.len();
    let wanted = pred.arity();
    if found != wanted {
        return Err(NameFault::Arity {
            at: word.at,
            found: found as u64,
            wanted: wanted as u64,
        });
    }
    let args = close_arguments(alloc, scope, pred, args)?;
    Ok(ClosedFormula::Static { pred, args })
}
