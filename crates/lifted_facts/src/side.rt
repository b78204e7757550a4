ghost use Rattle.std.specs.Prelude.{◌≡◌, ◌+◌, ◌<◌, ◌^◌, IfSome, true, false};
ghost use Rattle.std.specs.Option.{option_map};
ghost use Rattle.pc_common.specs.Case.{Case as PlainCase};
ghost use Rattle.pc_syntax.specs.Closed.{plain_closed};
ghost use Rattle.pc_syntax.specs.IsClosed.{IsClosed};
ghost use Rattle.static_preds.specs.Slots.{AreInRange};
ghost use Rattle.static_preds.specs.Values.{meanings, scope_of};
ghost use Rattle.lifted_facts.specs.PlainFacts.{plain_fact, plain_part, plain_pair, said as plain_said, IsProper, IsProperPart};
ghost use Rattle.lifted_facts.specs.Parts.{sides as sides_of, or_later};

use super::fact::{Fact, Said};
use super::inside::at_place;
use super::member::{edge_member, node_member};
use super::parts::said_of;
use pc_case::Case;
use pc_syntax::{ClosedFormula, Env};
use static_preds::copy_of;

/// The same from the next place of its range or list on.
fn later<'a>(said: &Said<'a>) -> Fact<'a>
    requires { said.now.start + 1 < 2 ^ 64 }
    ensures is { plain_fact result
        ≡ plain_said said.now.plus (plain_closed said.now.formula.now) (meanings said.now.env.items)
        (said.now.start + 1) }
    ensures proper { (c : PlainCase) → IsProperPart c said.now → IsProper c result }
{
    Fact::Said(Said {
        plus: said.plus,
        formula: said.formula,
        env: copy_of(&said.env),
        start: said.start + 1,
    })
}

/// The member at the first place, where there is one, with the same from the next place on.
fn with_later<'a>(said: &Said<'a>, first: Option<Fact<'a>>) -> Option<(Fact<'a>, Fact<'a>)>
    requires { IfSome first (λ f. said.now.start < 2 ^ 63) }
    ensures is { option_map plain_pair result ≡ or_later (option_map plain_fact first.entry)
        (plain_said said.now.plus (plain_closed said.now.formula.now) (meanings said.now.env.items)
        (said.now.start + 1)) }
    ensures proper { (c : PlainCase) → IsProperPart c said.now → IfSome first.entry (IsProper c)
        → IfSome result (λ both. IsProper c both.0 × IsProper c both.1) }
{
    let first = first?;
    Some((first, later(said)))
}

/// Two formulas under their signs, with the slots of the one that they are the sides of.
fn both_of<'a>(
    env: &Env,
    first_plus: bool,
    first: &'a ClosedFormula,
    second_plus: bool,
    second: &'a ClosedFormula,
) -> (Fact<'a>, Fact<'a>)
    ensures is { plain_pair result ≡ (
      plain_said first_plus (plain_closed first.now) (meanings env.now.items) 0,
      plain_said second_plus (plain_closed second.now) (meanings env.now.items) 0,
    ) }
    ensures proper { (c : PlainCase) → IsClosed (scope_of env.now.items) (plain_closed first.now)
        → IsClosed (scope_of env.now.items) (plain_closed second.now) → AreInRange c env.now.items
        → IsProper c result.0 × IsProper c result.1 }
{
    (
        said_of(env, first_plus, first),
        said_of(env, second_plus, second),
    )
}

/// The two sides of a formula that is said to hold.
fn sides_of_plus<'a>(case: &Case, said: &Said<'a>) -> Option<(Fact<'a>, Fact<'a>)>
    requires plus { said.now.plus ≡ true }
    requires part { IsProperPart case.now said.now }
    ensures is { option_map plain_pair result ≡ sides_of case.now (plain_part said.now) }
    ensures proper { IfSome result (λ both. IsProper case.now both.0 × IsProper case.now both.1) }
{
    match said.formula {
        ClosedFormula::Or(first, second) => Some(both_of(&said.env, true, first, true, second)),
        ClosedFormula::Implies(first, second) => {
            Some(both_of(&said.env, false, first, true, second))
        }
        ClosedFormula::Exists { sort, body } => {
            with_later(said, at_place(case, said, *sort, body, said.start as u64))
        }
        _ => None,
    }
}

/// The two sides of a formula that is said to be false.
fn sides_of_minus<'a>(case: &Case, said: &Said<'a>) -> Option<(Fact<'a>, Fact<'a>)>
    requires minus { said.now.plus ≡ false }
    requires part { IsProperPart case.now said.now }
    ensures is { option_map plain_pair result ≡ sides_of case.now (plain_part said.now) }
    ensures proper { IfSome result (λ both. IsProper case.now both.0 × IsProper case.now both.1) }
{
    let place = said.start as u64;
    match said.formula {
        ClosedFormula::And(first, second) => Some(both_of(&said.env, false, first, false, second)),
        ClosedFormula::Forall { sort, body } => {
            with_later(said, at_place(case, said, *sort, body, place))
        }
        ClosedFormula::Nodes(nodes) => with_later(said, node_member(case, said, nodes, place)),
        ClosedFormula::Edges(edges) => with_later(said, edge_member(case, said, edges, place)),
        _ => None,
    }
}

/// The two sides of a formula.
fn sides_of_said<'a>(case: &Case, said: &Said<'a>) -> Option<(Fact<'a>, Fact<'a>)>
    requires { IsProperPart case.now said.now }
    ensures is { option_map plain_pair result ≡ sides_of case.now (plain_part said.now) }
    ensures proper { IfSome result (λ both. IsProper case.now both.0 × IsProper case.now both.1) }
{
    if said.plus {
        sides_of_plus(case, said)
    } else {
        sides_of_minus(case, said)
    }
}

/// The two sides of a fact, one of which holds where the fact does; None where it has none. Takes no memory.
pub fn sides<'a>(case: &Case, fact: &Fact<'a>) -> Option<(Fact<'a>, Fact<'a>)>
    requires { IsProper case.now fact.now }
    ensures is { option_map plain_pair result ≡ sides_of case.now (plain_fact fact.now) }
    ensures proper { IfSome result (λ both. IsProper case.now both.0 × IsProper case.now both.1) }
{
    match fact {
        Fact::Said(said) => sides_of_said(case, said),
        _ => None,
    }
}
