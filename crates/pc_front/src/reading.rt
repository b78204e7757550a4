ghost use Rattle.std.specs.Prelude.{◌≡◌, ◌<◌, ◌^◌, ℕ, List, [], Some, None, length, map, IfOk, IfErr};
ghost use Rattle.pc_syntax.specs.Written.{written_model};
ghost use Rattle.pc_syntax.specs.Fault.{Fault, first_fault};
ghost use Rattle.pc_syntax.specs.NameFaults.{first_name_fault};
ghost use Rattle.pc_syntax.specs.ModelFault.{first_model_fault};
ghost use Rattle.pc_syntax.specs.Observable.{axioms_of};
ghost use Rattle.pc_syntax.specs.StageFaults.{stages_fault, first_stage_fault};
ghost use Rattle.uspec_lexer.specs.Spells.{Spells};
ghost use Rattle.scope_check.specs.FirstFault.{Answers};
ghost use Rattle.pc_ground.specs.Stages.{plain_stage, plain_axioms};
ghost use Rattle.pc_front.specs.ModelFront.{ModelOf, IsModelFront, IsModelFrontOf, IsModelEnd, written_stage, closed_axiom};
ghost use Rattle.pc_front.specs.ModelSteps.{axiom_fault, AreClosings, IsFirstEnd};
ghost use Rattle.pc_front.specs.Ends.{end_of};

use super::faults::{model_refusal, parse_refusal};
use super::model_front::{FrontEnd, ModelFront};
use macro_expand::{expand, stage_faults, with_short_names};
use pc_common::{Listed, Memory};
use pc_ground::{Axioms, Stage, Stages};
use pc_syntax::{Expanded, ModelFile, StageItems};
use scope_check::{NameFault, close};
use std::alloc::Global;
use uspec_lexer::{Tokens, tokens};
use uspec_parser::parse_model;

/// The stages and the closed axioms of a whole model.
///
/// `Refused` comes with the model's first fault: of its bytes, its tokens, its stages, its macros, its
/// sizes, and then of its names. The size of the file isn't judged.
///
/// Takes memory in proportion to the bytes and to the expanded axioms, whose size is at most 1,000,000.
/// Each name of the text is kept once, and so is each list of arguments as written. Closed arguments are
/// kept for each use: at most 3 for a predicate, and at most 32 for a binding, one for each variable.
/// Takes time in proportion to the same. Beside this, each name of a variable is compared with those in
/// scope, at most 32, and each name of a stage with those of the stages, at most 64; it is a short one then,
/// whatever its length in the text.
pub fn read_model(alloc: Global, bytes: &[u8]) -> Result<ModelFront, FrontEnd>
    requires { length bytes.now < 2 ^ 32 }
    ensures ok { IfOk result (IsModelFront bytes.now) }
    ensures err { IfErr result (IsModelEnd bytes.now) }
{
    let model = parse_bytes(alloc, bytes)?;
    judge_model(alloc, &model)
}

/// The stages and the closed axioms of a model as written, or its first fault, which is that of each text that says it.
pub fn judge_model(alloc: Global, model: &ModelFile) -> Result<ModelFront, FrontEnd>
    ensures ok { IfOk result (IsModelFrontOf (written_model model.now)) }
    ensures err { IfErr result (λ end. (bytes : List ℕ) → ModelOf bytes (written_model model.now)
        → IsModelEnd bytes end) }
{
    check_stages(model)?;
    let axioms = closed_axioms(alloc, model)?;
    let stages = stages_of(alloc, &model.stages)?;
    Ok(ModelFront { stages, axioms })
}

/// The axioms of a model that has no stage fault, expanded and closed.
///
/// Where a name is long, each becomes a short one first, so that a macro's body, which is copied for each of its
/// expansions, costs no name's length again. Neither the first fault nor a closed axiom changes by that.
fn closed_axioms(alloc: Global, model: &ModelFile) -> Result<Axioms, FrontEnd>
    requires { first_stage_fault (written_model model.now) ≡ None }
    ensures no_fault { IfOk result (λ _. first_model_fault (written_model model.now) ≡ None) }
    ensures no_name_fault { IfOk result (λ _. first_name_fault (written_model model.now) ≡ None) }
    ensures axioms { IfOk result (λ closed. plain_axioms closed
        ≡ map (closed_axiom (written_model model.now)) (axioms_of (written_model model.now))) }
    ensures err { IfErr result (IsFirstEnd (written_model model.now)) }
{
    match with_short_names(alloc, model)? {
        Some(short) => closings(alloc, &short),
        None => closings(alloc, model),
    }
}

/// The axioms of a model that has no stage fault, expanded and closed with the names that it has.
fn closings(alloc: Global, model: &ModelFile) -> Result<Axioms, FrontEnd>
    requires { first_stage_fault (written_model model.now) ≡ None }
    ensures no_fault { IfOk result (λ _. first_model_fault (written_model model.now) ≡ None) }
    ensures no_name_fault { IfOk result (λ _. first_name_fault (written_model model.now) ≡ None) }
    ensures axioms { IfOk result (λ closed. plain_axioms closed
        ≡ map (closed_axiom (written_model model.now)) (axioms_of (written_model model.now))) }
    ensures err { IfErr result (IsFirstEnd (written_model model.now)) }
{
    let expanded = expand(alloc, model)?;
    let axioms = close_axioms(alloc, model, &expanded)?;
    Ok(axioms)
}

/// The model as written, or the first fault of its bytes or tokens.
pub fn parse_bytes(alloc: Global, bytes: &[u8]) -> Result<ModelFile, FrontEnd>
    requires { length bytes.now < 2 ^ 32 }
    ensures ok { IfOk result (λ m. ModelOf bytes.now (written_model m)) }
    ensures err { IfErr result (IsModelEnd bytes.now) }
{
    let tokens = tokens(alloc, bytes)?;
    model_of(alloc, bytes, &tokens)
}

/// The model as written, from its tokens.
fn model_of(alloc: Global, bytes: &[u8], tokens: &Tokens<'_>) -> Result<ModelFile, FrontEnd>
    requires short { length bytes.now < 2 ^ 32 }
    requires spelled { Spells bytes.now tokens.now }
    ensures ok { IfOk result (λ m. ModelOf bytes.now (written_model m)) }
    ensures err { IfErr result (IsModelEnd bytes.now) }
{
    match parse_model(alloc, tokens) {
        Ok(model) => Ok(model),
        Err(fault) => Err(parse_refusal(bytes, tokens, fault)),
    }
}

/// Passes a model without a stage fault, and refuses another with its first one.
fn check_stages(model: &ModelFile) -> Result<(), FrontEnd>
    ensures ok { IfOk result (λ _. first_stage_fault (written_model model.now) ≡ None) }
    ensures err { IfErr result (λ end. (fault : Fault) × (first_stage_fault (written_model model.now) ≡ Some fault)
        × (end ≡ end_of (Some fault))) }
{
    match stage_faults(model) {
        None => Ok(()),
        Some((kind, place)) => Err(model_refusal(kind, place)),
    }
}

/// The expanded axioms, closed.
fn close_axioms(alloc: Global, model: &ModelFile, axioms: &[Expanded]) -> Result<Axioms, NameFault>
    requires { first_stage_fault (written_model model.now) ≡ None }
    ensures ok { IfOk result (λ closed. AreClosings model.now.stages axioms.now (plain_axioms closed)) }
    ensures err { IfErr result (Answers (first_fault (axiom_fault model.now.stages) axioms.now)) }
{
    let mut closed = Listed::new(alloc);
    for axiom in axioms {
        closed.push(close(alloc, model, axiom)?)?;
    }
    Ok(closed)
}

/// The stages of a model that has no stage fault.
fn stages_of(alloc: Global, stages: &StageItems) -> Result<Stages, Memory>
    requires { stages_fault [] stages.now ≡ None }
    ensures { IfOk result (λ kept. map plain_stage kept ≡ map written_stage stages.now) }
{
    let mut kept = Listed::new(alloc);
    for stage in stages.as_slice() {
        kept.push(Stage {
            number: stage.number as u8,
            name: stage.name.name.share()?,
        })?;
    }
    Ok(kept)
}
