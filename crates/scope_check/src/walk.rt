// The walk that closes an axiom of a model and a formula that is asked of one: only the file of their faults differs.
ghost use Rattle.std.specs.Prelude.{◌≡◌, [], IfOk, IfErr, None};
ghost use Rattle.std.specs.Option.{option_or};
ghost use Rattle.pc_syntax.specs.Scope.{quantified_in};
ghost use Rattle.pc_syntax.specs.Written.{written, bind_};
ghost use Rattle.pc_syntax.specs.Expansion.{IsExpanded};
ghost use Rattle.pc_syntax.specs.StageFaults.{stages_fault};
ghost use Rattle.pc_syntax.specs.NameFaults.{scope_fault};
ghost use Rattle.pc_syntax.specs.Closed.{plain_closed};
ghost use Rattle.scope_check.specs.QueryFaults.{filed, fault_within, AnswersIn, IsClosingWithin};

use super::arguments::close_values;
use super::closed_parts::{binding, connected, negation, quantified};
use super::filed::{Filed, in_file};
use super::nodes::{close_edges, close_nodes};
use super::scope::Scope;
use super::statics::close_static;
use pc_common::{Place, Which};
use pc_syntax::{Args, ClosedFormula, Formula, Name, Names, Sort, StageItems};
use std::alloc::Global;

/// Closes a formula of this file in which no variable is bound.
pub(crate) fn close_outermost(
    alloc: Global,
    stages: &StageItems,
    file: Which,
    formula: &Formula,
) -> Result<ClosedFormula, Filed>
    requires stages { stages_fault [] stages.now ≡ None }
    requires expanded { IsExpanded (written formula.now) }
    ensures ok { IfOk result
        (λ closed. IsClosingWithin file stages.now [] (written formula.now) (plain_closed closed)) }
    ensures err { IfErr result
        (λ e. AnswersIn (fault_within file stages.now [] [] (written formula.now)) e.file e.fault) }
{
    let scope = in_file(file, Scope::new(alloc))?;
    close_formula(alloc, stages, file, &scope, formula)
}

/// Closes a formula of this file in a scope. The walk goes outside before inside and left before right.
#[cycle(walk)]
fn close_formula<'a>(
    alloc: Global,
    stages: &StageItems,
    file: Which,
    scope: &Scope<'a>,
    formula: &'a Formula,
) -> Result<ClosedFormula, Filed>
    requires stages { stages_fault [] stages.now ≡ None }
    requires expanded { IsExpanded (written formula.now) }
    ensures ok { IfOk result
        (λ closed. IsClosingWithin file stages.now scope.now (written formula.now) (plain_closed closed)) }
    ensures err { IfErr result
        (λ e. AnswersIn (fault_within file stages.now [] scope.now (written formula.now)) e.file e.fault) }
{
    match formula {
        Formula::Not(body) => negation(alloc, close_formula(alloc, stages, file, scope, body)),
        Formula::And(left, right) | Formula::Or(left, right) | Formula::Implies(left, right) => {
            let both = close_both(alloc, stages, file, scope, left, right);
            connected(alloc, formula, both)
        }
        Formula::Forall {
            at,
            sort,
            name,
            body,
        }
        | Formula::Exists {
            at,
            sort,
            name,
            body,
        } => {
            let body = close_quantified(alloc, stages, file, scope, *at, *sort, name, body);
            quantified(alloc, formula, body)
        }
        Formula::Static { pred, args } => in_file(file, close_static(alloc, scope, pred, args)),
        Formula::Nodes(nodes) => in_file(file, close_nodes(alloc, stages, scope, nodes)),
        Formula::Edges(edges) => in_file(file, close_edges(alloc, stages, scope, edges)),
        Formula::Bind {
            at,
            names,
            args,
            body,
        } => close_binding(alloc, stages, file, scope, *at, names, args, body),
        Formula::Expand { .. } => unreachable!(),
    }
}

/// Closes two formulas in a scope, the left one first.
#[cycle(walk)]
fn close_both<'a>(
    alloc: Global,
    stages: &StageItems,
    file: Which,
    scope: &Scope<'a>,
    left: &'a Formula,
    right: &'a Formula,
) -> Result<(ClosedFormula, ClosedFormula), Filed>
    requires stages { stages_fault [] stages.now ≡ None }
    requires expanded { IsExpanded (written left.now) × IsExpanded (written right.now) }
    ensures ok { IfOk result (λ both. IsClosingWithin file stages.now scope.now (written left.now) (plain_closed both.0)
        × IsClosingWithin file stages.now scope.now (written right.now) (plain_closed both.1)) }
    ensures err { IfErr result (λ e. AnswersIn (option_or (fault_within file stages.now [] scope.now (written left.now))
        (fault_within file stages.now [] scope.now (written right.now))) e.file e.fault) }
{
    let left = close_formula(alloc, stages, file, scope, left)?;
    let right = close_formula(alloc, stages, file, scope, right)?;
    Ok((left, right))
}

/// The body of a quantifier at `at`, after the number of variables in it.
#[cycle(walk)]
fn close_quantified<'a>(
    alloc: Global,
    stages: &StageItems,
    file: Which,
    scope: &Scope<'a>,
    at: Place,
    sort: Sort,
    name: &'a Name,
    body: &'a Formula,
) -> Result<ClosedFormula, Filed>
    requires stages { stages_fault [] stages.now ≡ None }
    requires expanded { IsExpanded (written body.now) }
    ensures ok { let inside = quantified_in scope.now name.now sort in
        IfOk result (λ closed. (scope_fault at inside ≡ None)
        × IsClosingWithin file stages.now inside (written body.now) (plain_closed closed)) }
    ensures err { let inside = quantified_in scope.now name.now sort in
        IfErr result (λ e. AnswersIn (option_or (filed file (scope_fault at inside))
        (fault_within file stages.now [] inside (written body.now))) e.file e.fault) }
{
    let inside = in_file(file, scope.enter_quantifier(alloc, at, sort, name))?;
    close_formula(alloc, stages, file, &inside, body)
}

/// A binding at `at`, which stands for an expansion: its arguments are judged, then the number of variables in it, and
/// then the macro's body, which stands in the model.
#[cycle(walk)]
fn close_binding<'a>(
    alloc: Global,
    stages: &StageItems,
    file: Which,
    scope: &Scope<'a>,
    at: Place,
    names: &'a Names,
    args: &'a Args,
    body: &'a Formula,
) -> Result<ClosedFormula, Filed>
    requires stages { stages_fault [] stages.now ≡ None }
    requires expanded { IsExpanded (written body.now) }
    ensures ok { IfOk result
        (λ closed. IsClosingWithin file stages.now scope.now (bind_ at names.now args.now (written body.now))
        (plain_closed closed)) }
    ensures err { IfErr result
        (λ e. AnswersIn (fault_within file stages.now [] scope.now (bind_ at names.now args.now (written body.now)))
        e.file e.fault) }
{
    let values = in_file(file, close_values(alloc, scope, names, args))?;
    let inside = in_file(file, scope.enter_binding(alloc, at, names, args))?;
    let body = close_formula(alloc, stages, Which::Model, &inside, body);
    binding(alloc, values, body)
}
