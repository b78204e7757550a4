ghost use Rattle.std.specs.Prelude.{◌≡◌, ◌+◌, IfOk, OnOk};
ghost use Rattle.lifted_facts.specs.PlainFacts.{plain_fact, IsProper};
ghost use Rattle.lifter.specs.Trees.{fact_tree};
ghost use Rattle.lifter.specs.Kinds.{kind_of};
ghost use Rattle.lifter.specs.declared.kind.FactKind.TheVariants.{False};
ghost use Rattle.lifter.specs.Closings.{HasClosed};

use super::fact_kind::false_part;
use super::line::{LiftedSteps, Line};
use super::state::Later;
use lifted_facts::{Fact, is_false, sides};
use pc_case::Case;
use pc_common::Memory;

/// One number more. A count of facts that has no number left is taken as refused memory.
fn next(count: u64) -> Result<u64, Memory>
    ensures { IfOk result (λ n. n ≡ count + 1) }
{
    match count.checked_add(1) {
        Some(more) => Ok(more),
        None => Err(Memory),
    }
}

/// Adds the steps that close a branch of `count` facts, of which the one of this number is False.
pub(crate) fn close(
    case: &Case,
    fact: &Fact<'_>,
    number: u64,
    count: u64,
    steps: &mut LiftedSteps,
) -> Result<(), Memory>
    requires proper { IsProper case.now fact.now }
    requires kind { kind_of (fact_tree case.now (plain_fact fact.now)) ≡ False }
    ensures { OnOk result (HasClosed case.now (plain_fact fact.now) number count steps.old steps.new) }
{
    if is_false(case, fact) {
        return steps.push(Line::False(number));
    }
    let more = next(count)?;
    match sides(case, fact) {
        Some((first, second)) => {
            steps.push(Line::Split(number))?;
            close(case, &first, count, more, steps)?;
            close(case, &second, count, more, steps)
        }
        None => {
            let named = false_part(case, fact);
            steps.push(Line::Derive(named.0, number))?;
            close(case, &named.1, count, more, steps)
        }
    }
}

/// Adds the steps that close a waiting branch by its last fact, which is False.
pub(crate) fn close_due(case: &Case, due: &Later<'_>, steps: &mut LiftedSteps) -> Result<(), Memory>
    requires proper { IsProper case.now due.now.fact }
    requires kind { kind_of (fact_tree case.now (plain_fact due.now.fact)) ≡ False }
    ensures { OnOk result
        (HasClosed case.now (plain_fact due.now.fact) due.now.count (due.now.count + 1) steps.old steps.new) }
{
    let count = due.count as u64;
    close(case, &due.fact, count, next(count)?, steps)
}
