ghost use Rattle.std.specs.Prelude.{◌≡◌, [], IfOk, IfErr, None};
ghost use Rattle.pc_syntax.specs.Written.{written, stage_numbers, written_model};
ghost use Rattle.pc_syntax.specs.StageFaults.{first_stage_fault};
ghost use Rattle.pc_syntax.specs.NameFaults.{name_fault};
ghost use Rattle.pc_syntax.specs.Closed.{plain_closed};
ghost use Rattle.pc_syntax.specs.StagesWithin.{StagesWithin};
ghost use Rattle.scope_check.specs.FirstFault.{Answers};
ghost use Rattle.scope_check.specs.Closings.{Closes};

use super::fault::NameFault;
use super::filed::Filed;
use super::walk::close_outermost;
use pc_common::Which;
use pc_syntax::{Closed, Expanded, ModelFile};
use std::alloc::Global;

/// Closes an axiom of a model: slots for its variables, numbers for its stages, rows for its
/// predicates. An `Err` is the axiom's first name fault, unless memory was refused.
///
/// The model has no stage fault, so its stages are at most 64 and have numbers from 0 to 63. Of the
/// model nothing but these is read. It nests at most two calls for each connective, quantifier and binding
/// above an atom, which in a model without faults are at most 512.
pub fn close(alloc: Global, model: &ModelFile, axiom: &Expanded) -> Result<Closed, NameFault>
    requires { first_stage_fault (written_model model.now) ≡ None }
    ensures ok { IfOk result (Closes model.now.stages (written «axiom».now.body)) }
    ensures stages { IfOk result (λ closed. StagesWithin (stage_numbers model.now.stages) (plain_closed closed.body)) }
    ensures err { IfErr result (Answers (name_fault model.now.stages [] [] (written «axiom».now.body))) }
{
    match close_outermost(alloc, &model.stages, Which::Model, &axiom.body) {
        Ok(body) => Ok(Closed { body }),
        Err(Filed { fault, .. }) => Err(fault),
    }
}
