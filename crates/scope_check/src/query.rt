ghost use Rattle.std.specs.Prelude.{◌≡◌, [], IfOk, IfErr, None};
ghost use Rattle.pc_common.specs.declared.fault.Which.TheVariants.{Query};
ghost use Rattle.pc_syntax.specs.Written.{written, stage_numbers, written_model};
ghost use Rattle.pc_syntax.specs.Expansion.{IsExpanded};
ghost use Rattle.pc_syntax.specs.StageFaults.{stages_fault, first_stage_fault};
ghost use Rattle.pc_syntax.specs.Closed.{plain_closed};
ghost use Rattle.pc_syntax.specs.StagesWithin.{StagesWithin};
ghost use Rattle.scope_check.specs.Closings.{Closes};
ghost use Rattle.scope_check.specs.QueryFaults.{fault_within, AnswersIn, asked, IsDenial};

use super::fault::NameFault;
use super::filed::Filed;
use super::walk::close_outermost;
use pc_common::Which;
use pc_syntax::{Closed, Expanded, Formula, ModelFile, StageItems};
use std::alloc::Global;

/// Closes a formula that is asked of a model, as `close` closes an axiom. It is given as its denial, which was
/// expanded, and comes back without it.
///
/// An `Err` is the first name fault of the denial with the file in which it stands: in the body of a macro this is the
/// model's, else the query's. Where memory was refused it is the query's. The model has no stage fault, and of the model
/// nothing but its stages is read.
pub fn close_query(
    alloc: Global,
    model: &ModelFile,
    denied: &Expanded,
) -> Result<Closed, (Which, NameFault)>
    requires stages { first_stage_fault (written_model model.now) ≡ None }
    requires denial { IsDenial (written denied.now.body) }
    ensures ok { IfOk result (Closes model.now.stages (asked (written denied.now.body))) }
    ensures stages { IfOk result (λ closed. StagesWithin (stage_numbers model.now.stages) (plain_closed closed.body)) }
    ensures err { IfErr result
        (λ e. AnswersIn (fault_within Query model.now.stages [] [] (written denied.now.body)) e.0 e.1) }
{
    match &denied.body {
        Formula::Not(formula) => close_asked(alloc, &model.stages, formula),
        Formula::And(..)
        | Formula::Or(..)
        | Formula::Implies(..)
        | Formula::Forall { .. }
        | Formula::Exists { .. }
        | Formula::Static { .. }
        | Formula::Nodes(_)
        | Formula::Edges(_)
        | Formula::Bind { .. }
        | Formula::Expand { .. } => unreachable!(),
    }
}

/// Closes a formula of a query, in which no variable is bound.
fn close_asked(
    alloc: Global,
    stages: &StageItems,
    formula: &Formula,
) -> Result<Closed, (Which, NameFault)>
    requires stages { stages_fault [] stages.now ≡ None }
    requires expanded { IsExpanded (written formula.now) }
    ensures ok { IfOk result (Closes stages.now (written formula.now)) }
    ensures stages { IfOk result (λ closed. StagesWithin (stage_numbers stages.now) (plain_closed closed.body)) }
    ensures err { IfErr result (λ e. AnswersIn (fault_within Query stages.now [] [] (written formula.now)) e.0 e.1) }
{
    match close_outermost(alloc, stages, Which::Query, formula) {
        Ok(body) => Ok(Closed { body }),
        Err(Filed { file, fault }) => Err((file, fault)),
    }
}
