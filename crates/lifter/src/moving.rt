ghost use Rattle.std.specs.Prelude.{◌≡◌, IfOk, OnOk, List};
ghost use Rattle.pc_common.specs.Case.{Case as PlainCase};
ghost use Rattle.pc_common.specs.World.{Node};
ghost use Rattle.pc_ground.specs.declared.row.Row.{Row as PlainRow};
ghost use Rattle.refutation.specs.BranchFacts.{plain_branch_fact};
ghost use Rattle.lifted_facts.specs.PlainFacts.{plain_fact, IsProper};
ghost use Rattle.lifted_facts.specs.Lifted.{HasPart, HasSides};
ghost use Rattle.lifter.specs.Trees.{fact_tree};
ghost use Rattle.lifter.specs.Kinds.{kind_of};
ghost use Rattle.lifter.specs.declared.kind.FactKind.TheVariants.{False};
ghost use Rattle.lifter.specs.KnownFacts.{HasKey, IsKnown};
ghost use Rattle.lifter.specs.States.{branch_of, Moves, GainsFact};

use super::closing::close;
use super::line::Line;
use super::state::{Later, State, Task};
use lifted_facts::{Fact, Said, Way};
use pc_case::Case;
use pc_common::Memory;
use refutation::BranchFact;
use static_preds::copy_of;

/// The same fact once more. Takes no memory.
pub(crate) fn copy_fact<'a>(fact: &Fact<'a>) -> Fact<'a>
    ensures is { plain_fact result ≡ plain_fact fact.now }
    ensures proper { (c : PlainCase) → IsProper c fact.now → IsProper c result }
{
    match fact {
        Fact::Said(said) => Fact::Said(Said {
            plus: said.plus,
            formula: said.formula,
            env: copy_of(&said.env),
            start: said.start,
        }),
        Fact::Node { plus, node } => Fact::Node {
            plus: *plus,
            node: *node,
        },
        Fact::Edge { plus, from, to } => Fact::Edge {
            plus: *plus,
            from: *from,
            to: *to,
        },
    }
}

/// Adds a part of the fact of this number to the first branch, and returns the part's number.
pub(crate) fn derive<'a>(
    case: &Case,
    state: &mut State<'a>,
    way: Way,
    number: u64,
    part: &Fact<'a>,
) -> Result<u64, Memory>
    requires proper { IsProper case.now part.now }
    requires is { HasPart case.now (branch_of state.old) way number (plain_fact part.now) }
    ensures { IfOk result (GainsFact case.now state.old state.new (plain_fact part.now)) }
{
    let count = state.facts.len();
    state.steps.push(Line::Derive(way, number))?;
    state.facts.push(copy_fact(part))?;
    Ok(count as u64)
}

/// Splits the fact of this number, whose first side is False: the branch goes on with the second one. Returns the
/// second side's number.
pub(crate) fn lose_first<'a>(
    case: &Case,
    state: &mut State<'a>,
    number: u64,
    first: &Fact<'a>,
    second: &Fact<'a>,
) -> Result<u64, Memory>
    requires first_proper { IsProper case.now first.now }
    requires second_proper { IsProper case.now second.now }
    requires are { HasSides case.now (branch_of state.old) number (plain_fact first.now) (plain_fact second.now) }
    requires kind { kind_of (fact_tree case.now (plain_fact first.now)) ≡ False }
    ensures { IfOk result (GainsFact case.now state.old state.new (plain_fact second.now)) }
{
    let count = state.facts.len();
    state.steps.push(Line::Split(number))?;
    close(
        case,
        first,
        count as u64,
        count as u64 + 1,
        &mut state.steps,
    )?;
    state.facts.push(copy_fact(second))?;
    Ok(count as u64)
}

/// Splits the fact of this number, whose second side is False: the branch goes on with the first one, and one that has
/// the second waits to be closed. Returns the first side's number.
pub(crate) fn lose_second<'a>(
    case: &Case,
    state: &mut State<'a>,
    number: u64,
    first: &Fact<'a>,
    second: &Fact<'a>,
) -> Result<u64, Memory>
    requires first_proper { IsProper case.now first.now }
    requires second_proper { IsProper case.now second.now }
    requires are { HasSides case.now (branch_of state.old) number (plain_fact first.now) (plain_fact second.now) }
    requires kind { kind_of (fact_tree case.now (plain_fact second.now)) ≡ False }
    ensures { IfOk result (GainsFact case.now state.old state.new (plain_fact first.now)) }
{
    let count = state.facts.len();
    let known = state.known.len();
    state.steps.push(Line::Split(number))?;
    state.later.push(Later {
        count,
        known,
        fact: copy_fact(second),
        task: Task::Close,
    })?;
    state.facts.push(copy_fact(first))?;
    Ok(count as u64)
}

/// Knows a key from now on, with the number of its fact.
pub(crate) fn mark<'a>(
    case: &Case,
    state: &mut State<'a>,
    key: BranchFact,
    number: u64,
) -> Result<(), Memory>
    requires { (rows : List (PlainRow Node))
        × IsKnown case.now rows (branch_of state.old) (plain_branch_fact key) number }
    ensures moves { OnOk result
        ((rows : List (PlainRow Node)) → IsKnown case.now rows (branch_of state.old) (plain_branch_fact key) number
        → Moves case.now rows state.old state.new) }
    ensures has { OnOk result (HasKey state.new.known (plain_branch_fact key)) }
{
    // the contract alone speaks of it
    let _case = case;
    state.known.add(key, number)
}
