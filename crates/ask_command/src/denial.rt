ghost use Rattle.std.specs.Prelude.{◌≡◌, ℕ, List, None, IfOk, IfErr};
ghost use Rattle.pc_syntax.specs.Written.{Written, written, WrittenModel, written_model};
ghost use Rattle.pc_syntax.specs.StageFaults.{first_stage_fault};
ghost use Rattle.pc_syntax.specs.Closed.{plain_closed};
ghost use Rattle.macro_expand.specs.Faults.{IsFirstMacroFault};
ghost use Rattle.pc_front.specs.ModelFront.{closed_axiom};
ghost use Rattle.ask_command.specs.Queries.{FormulaOf, with_denial as with_denial_of, first_query_fault, IsQueryEnd};
ghost use Rattle.ask_command.specs.Denials.{EndsWithAxiom, EndsWithDenial, IsLastExpansion, IsFirstQueryEnd};

use super::ends::move_end;
use macro_expand::{MacroFault, expand, with_short_names};
use pc_common::{Memory, Place, Which};
use pc_front::FrontEnd;
use pc_syntax::{Closed, Expanded, Formula, Item, ModelFile};
use scope_check::close_query;
use std::alloc::Global;

/// The model with the denial of the formula as its last axiom, whose place is the query's first byte.
fn with_denial(alloc: Global, mut model: ModelFile, formula: Formula) -> Result<ModelFile, Memory>
    ensures { IfOk result (λ m. written_model m ≡ with_denial_of (written_model model) (written formula)) }
{
    let body = Formula::negation(alloc, formula)?;
    let at = Place { offset: 0 };
    model.items.push(Item::Axiom { at, body })?;
    Ok(model)
}

/// The last axiom of a model with its macros expanded, or the first fault of the model's macros, or where these have
/// none, of its sizes.
fn last_expansion(alloc: Global, model: &ModelFile) -> Result<Expanded, MacroFault>
    requires { EndsWithAxiom (written_model model.now) }
    ensures ok { IfOk result (IsLastExpansion (written_model model.now)) }
    ensures err { IfErr result (IsFirstMacroFault (written_model model.now)) }
{
    let mut axioms = expand(alloc, model)?;
    match axioms.pop() {
        Some(last) => Ok(last),
        None => unreachable!(),
    }
}

/// The formula whose denial is the model's last axiom, closed with the names that the model has.
///
/// An `Err` is the first fault of the denial: of its macros, of the sizes, or of its names.
fn close_as_named(alloc: Global, model: &ModelFile) -> Result<Closed, FrontEnd>
    requires denial { EndsWithDenial (written_model model.now) }
    requires stages { first_stage_fault (written_model model.now) ≡ None }
    ensures ok { IfOk result (λ closed. (m : WrittenModel) (f : Written) → written_model model.now ≡ with_denial_of m f
        → (first_query_fault m f ≡ None) × (plain_closed closed.body ≡ closed_axiom m f)) }
    ensures err { IfErr result (λ end. (m : WrittenModel) (f : Written) → written_model model.now ≡ with_denial_of m f
        → IsFirstQueryEnd m f end) }
{
    let denied = match last_expansion(alloc, model) {
        Ok(denied) => denied,
        Err(fault) => return Err(move_end(Which::Query, FrontEnd::from(fault))),
    };
    match close_query(alloc, model, &denied) {
        Ok(closed) => Ok(closed),
        Err((file, fault)) => Err(move_end(file, FrontEnd::from(fault))),
    }
}

/// The same, where each name of the model became a short one first if one of them is long. Neither the first fault nor
/// the closed formula changes by that.
fn close_denied(alloc: Global, model: &ModelFile) -> Result<Closed, FrontEnd>
    requires denial { EndsWithDenial (written_model model.now) }
    requires stages { first_stage_fault (written_model model.now) ≡ None }
    ensures ok { IfOk result (λ closed. (m : WrittenModel) (f : Written) → written_model model.now ≡ with_denial_of m f
        → (first_query_fault m f ≡ None) × (plain_closed closed.body ≡ closed_axiom m f)) }
    ensures err { IfErr result (λ end. (m : WrittenModel) (f : Written) → written_model model.now ≡ with_denial_of m f
        → IsFirstQueryEnd m f end) }
{
    match with_short_names(alloc, model)? {
        Some(short) => close_as_named(alloc, &short),
        None => close_as_named(alloc, model),
    }
}

/// The formula closed, as it is asked of a model without faults.
pub(crate) fn close_formula(
    alloc: Global,
    model: ModelFile,
    formula: Formula,
) -> Result<Closed, FrontEnd>
    requires { first_stage_fault (written_model model) ≡ None }
    ensures ok { let m = written_model model in let f = written formula in
        IfOk result (λ closed. (first_query_fault m f ≡ None) × (plain_closed closed.body ≡ closed_axiom m f)) }
    ensures err { let m = written_model model in let f = written formula in
        IfErr result (λ end. (bytes : List ℕ) → FormulaOf bytes f → IsQueryEnd m bytes end) }
{
    let model = with_denial(alloc, model, formula)?;
    close_denied(alloc, &model)
}
