ghost use Rattle.std.specs.Prelude.{◌≡◌, ◌≢◌, ◌∷◌, ℕ, List, IfOk, MatchOption, codes};
ghost use Rattle.pc_common.specs.Case.{MicroOp};
ghost use Rattle.lifted_facts.specs.Lifted.{LiftedStep};
ghost use Rattle.lifted_facts.specs.Opens.{opens_at};
ghost use Rattle.lifted_check.specs.StepLines.{keyword_text, IsStepLine};
ghost use Rattle.lifted_check.specs.declared.keyword.Keyword.TheVariants.{Inst as InstWord};
ghost use Rattle.lifted_check.specs.declared.stage.Stage.TheVariants.{Start, First, Second};
ghost use Rattle.lifted_check.specs.LiftedTexts.{Question, asked};
ghost use Rattle.lifted_check.specs.Stages.{IsCase, IsAsked, StandsAt, AreStepsSoFar, GoesTo, HasGone, HasSteppedOn};
ghost use Rattle.pc_ground.specs.Words.{words};

use super::header::{is_first, is_last, is_second, is_third};
use super::keyword::{Keyword, keyword_named};
use super::numbers::read_numbers;
use super::stage::Stage;
use super::step::step_of;
use super::value::read_instance;
use super::words::first_word;
use lifted_facts::{FactBranches, FactStep, Way};
use pc_case::Case;
use pc_common::Memory;
use pc_syntax::Closed;
use std::alloc::Global;

/// The keyword that a step line begins with, and what stands after its space; None where the line is that of no step.
fn read_keyword(line: &[u8]) -> Option<(Keyword, &[u8])>
    ensures { MatchOption result ((ops : List MicroOp) (s : LiftedStep) → IsStepLine ops line.now s → ⊥)
        (λ r. words line.now ≡ keyword_text r.0 ∷ words r.1.now) }
{
    let (word, rest) = first_word(line);
    Some((keyword_named(word)?, rest?))
}

/// Takes the line of an instantiation, of which this stands after its keyword.
fn take_instance(case: &Case, branches: &mut FactBranches<'_>, rest: &[u8]) -> Result<bool, Memory>
    ensures case { branches.new.case.now ≡ branches.old.case.now }
    ensures stepped { IfOk result (λ good. (line : List ℕ) → IsCase case.now → branches.old.case.now ≡ case.now
        → words line ≡ keyword_text InstWord ∷ words rest.now
        → HasSteppedOn case.now line (opens_at branches.old) (opens_at branches.new) good) }
{
    match read_instance(case, rest) {
        Some((number, value)) => branches.take(FactStep::Derive(Way::Inst(value), number)),
        None => Ok(false),
    }
}

/// Takes the line of a step without a value, of which this stands after its keyword.
fn take_numbers(
    row: &mut Vec<u64>,
    branches: &mut FactBranches<'_>,
    keyword: Keyword,
    rest: &[u8],
) -> Result<bool, Memory>
    requires { keyword ≢ InstWord }
    ensures case { branches.new.case.now ≡ branches.old.case.now }
    ensures stepped { IfOk result (λ good. (line : List ℕ) → IsCase branches.old.case.now
        → words line ≡ keyword_text keyword ∷ words rest.now
        → HasSteppedOn branches.old.case.now line (opens_at branches.old) (opens_at branches.new) good) }
{
    row.clear();
    if !read_numbers(rest, row)? {
        return Ok(false);
    }
    match step_of(keyword, row) {
        Some(step) => branches.take(step),
        None => Ok(false),
    }
}

/// Takes a step line at the first open branch. Returns whether the line is that of a step whose condition holds. After
/// false, or where memory is refused, nothing is said of the branches.
pub(crate) fn take_line(
    case: &Case,
    row: &mut Vec<u64>,
    branches: &mut FactBranches<'_>,
    line: &[u8],
) -> Result<bool, Memory>
    ensures case { branches.new.case.now ≡ branches.old.case.now }
    ensures stepped { IfOk result (λ good. IsCase case.now → branches.old.case.now ≡ case.now
        → HasSteppedOn case.now line.now (opens_at branches.old) (opens_at branches.new) good) }
{
    let Some((keyword, rest)) = read_keyword(line) else {
        return Ok(false);
    };
    match keyword {
        Keyword::Inst => take_instance(case, branches, rest),
        _ => take_numbers(row, branches, keyword, rest),
    }
}

/// The stage after the first line.
fn after_start<'a>(line: &[u8]) -> Option<Stage<'a>>
    ensures { (q : Question) (lines : List (List ℕ)) → StandsAt q Start lines → GoesTo q lines line.now result }
{
    if is_first(line) {
        Some(Stage::First)
    } else {
        None
    }
}

/// The stage after the second line.
fn after_first<'a>(case: &Case, line: &[u8]) -> Option<Stage<'a>>
    ensures { (q : Question) (lines : List (List ℕ)) → q.case ≡ case.now → StandsAt q First lines
        → GoesTo q lines line.now result }
{
    if is_second(line, case.expect()) {
        Some(Stage::Second)
    } else {
        None
    }
}

/// The stage after the third line.
fn after_second<'a>(
    alloc: Global,
    case: &'a Case,
    axioms: &'a [Closed],
    line: &[u8],
) -> Result<Option<Stage<'a>>, Memory>
    ensures { IfOk result (λ next. (lines : List (List ℕ)) → StandsAt (asked case.now axioms.now) Second lines
        → GoesTo (asked case.now axioms.now) lines line.now next) }
{
    if !is_third(line) {
        return Ok(None);
    }
    Ok(Some(Stage::Steps(FactBranches::new(alloc, case, axioms)?)))
}

/// The stage after the last line, where no branch may be open.
fn end_steps<'a>(branches: &FactBranches<'_>) -> Option<Stage<'a>>
    ensures { (q : Question) (lines : List (List ℕ)) → IsAsked q → AreStepsSoFar q branches.now lines
        → GoesTo q lines (codes "end") result }
{
    if branches.is_closed() {
        Some(Stage::Ended)
    } else {
        None
    }
}

/// Puts the next stage in a stage's place, if there is one. Returns whether there is.
fn go_on<'a>(stage: &mut Stage<'a>, next: Option<Stage<'a>>) -> bool
    ensures { (q : Question) (lines : List (List ℕ)) (line : List ℕ) → GoesTo q lines line next.entry
        → HasGone q lines line stage.new result }
{
    let Some(next) = next else {
        return false;
    };
    *stage = next;
    true
}

/// Takes the next line, so that the stage is the one after it. Returns whether a lifted text goes on so. After false,
/// or where memory is refused, nothing is said of the stage.
pub(crate) fn advance<'a>(
    alloc: Global,
    case: &'a Case,
    axioms: &'a [Closed],
    row: &mut Vec<u64>,
    stage: &mut Stage<'a>,
    line: &[u8],
) -> Result<bool, Memory>
    ensures { IfOk result (λ good. IsAsked (asked case.now axioms.now) → (lines : List (List ℕ))
        → StandsAt (asked case.now axioms.now) stage.old lines
        → HasGone (asked case.now axioms.now) lines line.now stage.new good) }
{
    let next = match stage {
        Stage::Start => after_start(line),
        Stage::First => after_first(case, line),
        Stage::Second => after_second(alloc, case, axioms, line)?,
        Stage::Steps(branches) => {
            if !is_last(line) {
                return take_line(case, row, branches, line);
            }
            end_steps(branches)
        }
        Stage::Ended => None,
    };
    Ok(go_on(stage, next))
}
