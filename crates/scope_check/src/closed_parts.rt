// A formula over parts that were closed, unless a part has a fault or memory is refused. Each takes the parts as the
// walk has them, so that the walk holds no closed formula of its own.
ghost use Rattle.std.specs.Prelude.{◌≡◌, IfOk, IfErr, IsOkAnd, Ok};
ghost use Rattle.pc_syntax.specs.Closed.{plain_closed, closed_not, closed_bind};
ghost use Rattle.pc_syntax.specs.Written.{written};
ghost use Rattle.scope_check.specs.PartsOf.{IsConnective, IsQuantifier, connected_as, quantified_as};
ghost use Rattle.scope_check.specs.PassedFaults.{IsRefusal, IsPassedOn};

use super::filed::Filed;
use pc_common::Memory;
use pc_syntax::{ClosedArgs, ClosedFormula, Formula};
use std::alloc::Global;

/// A formula that was made, unless memory was refused.
fn made(formula: Result<ClosedFormula, Memory>) -> Result<ClosedFormula, Filed>
    ensures ok { IfOk result (λ closed. formula ≡ Ok closed) }
    ensures err { IfErr result IsRefusal }
{
    Ok(formula?)
}

/// `~ body`.
pub(crate) fn negation(
    alloc: Global,
    body: Result<ClosedFormula, Filed>,
) -> Result<ClosedFormula, Filed>
    ensures ok { IfOk result (λ f. IsOkAnd body (λ b. plain_closed f ≡ closed_not (plain_closed b))) }
    ensures err { IfErr result (IsPassedOn body) }
{
    made(ClosedFormula::negation(alloc, body?))
}

/// The two parts of a connective that were closed, connected as it has them.
pub(crate) fn connected(
    alloc: Global,
    connective: &Formula,
    both: Result<(ClosedFormula, ClosedFormula), Filed>,
) -> Result<ClosedFormula, Filed>
    requires { IsConnective (written connective.now) }
    ensures ok { IfOk result (λ f. IsOkAnd both
        (λ b. plain_closed f ≡ connected_as (written connective.now) (plain_closed b.0) (plain_closed b.1))) }
    ensures err { IfErr result (IsPassedOn both) }
{
    let (left, right) = both?;
    made(match connective {
        Formula::And(_, _) => ClosedFormula::conjunction(alloc, left, right),
        Formula::Or(_, _) => ClosedFormula::disjunction(alloc, left, right),
        Formula::Implies(_, _) => ClosedFormula::implication(alloc, left, right),
        _ => unreachable!(),
    })
}

/// The part of a quantifier that was closed, under the quantifier as it stands. Its variable takes the next slot there.
pub(crate) fn quantified(
    alloc: Global,
    quantifier: &Formula,
    body: Result<ClosedFormula, Filed>,
) -> Result<ClosedFormula, Filed>
    requires { IsQuantifier (written quantifier.now) }
    ensures ok { IfOk result (λ f. IsOkAnd body
        (λ b. plain_closed f ≡ quantified_as (written quantifier.now) (plain_closed b))) }
    ensures err { IfErr result (IsPassedOn body) }
{
    let body = body?;
    made(match quantifier {
        Formula::Forall { sort, .. } => ClosedFormula::forall(alloc, *sort, body),
        Formula::Exists { sort, .. } => ClosedFormula::exists(alloc, *sort, body),
        _ => unreachable!(),
    })
}

/// A binding, whose arguments' values take the next slots in `body`, in their order.
pub(crate) fn binding(
    alloc: Global,
    values: ClosedArgs,
    body: Result<ClosedFormula, Filed>,
) -> Result<ClosedFormula, Filed>
    ensures ok { IfOk result (λ f. IsOkAnd body (λ b. plain_closed f ≡ closed_bind values (plain_closed b))) }
    ensures err { IfErr result (IsPassedOn body) }
{
    made(ClosedFormula::bind(alloc, values, body?))
}
