ghost use Rattle.std.specs.Prelude.{◌≡◌, ◌<◌, length, IfSome};
ghost use Rattle.std.specs.Option.{option_map};
ghost use Rattle.pc_common.specs.Case.{Case as PlainCase};
ghost use Rattle.pc_syntax.specs.Closed.{plain_closed};
ghost use Rattle.pc_syntax.specs.IsClosed.{IsClosed, with_sort};
ghost use Rattle.pc_syntax.specs.declared.limits.TheConstants.{MAX_VARIABLES};
ghost use Rattle.static_preds.specs.Slots.{AreInRange};
ghost use Rattle.static_preds.specs.Values.{meanings, scope_of};
ghost use Rattle.lifted_facts.specs.declared.way.Way.TheVariants.{Left as LeftWay, Right as RightWay, Not as NotWay, Bind as BindWay, Inst as InstWay, Member as MemberWay};
ghost use Rattle.lifted_facts.specs.PlainFacts.{plain_fact, plain_part, said as plain_said, IsProper, IsProperPart};
ghost use Rattle.lifted_facts.specs.Parts.{part_of, said_at, number_of_instance as place_of_value};

use super::fact::{Fact, Said};
use super::inside::at_place;
use super::member::{edge_member, node_member};
use super::way::{Instance, Way};
use pc_case::Case;
use pc_syntax::{ClosedFormula, Env, Sort};
use static_preds::{copy_of, with_values};

/// A formula under a sign, with the slots of the one that it is a part of.
pub(crate) fn said_of<'a>(env: &Env, plus: bool, formula: &'a ClosedFormula) -> Fact<'a>
    ensures is { plain_fact result ≡ plain_said plus (plain_closed formula.now) (meanings env.now.items) 0 }
    ensures proper { (c : PlainCase) → IsClosed (scope_of env.now.items) (plain_closed formula.now)
        → AreInRange c env.now.items → IsProper c result }
{
    Fact::Said(Said {
        plus,
        formula,
        env: copy_of(env),
        start: 0,
    })
}

/// The left side, where it holds with the whole.
fn left<'a>(said: &Said<'a>) -> Option<Fact<'a>>
    ensures is { (c : PlainCase) → option_map plain_fact result ≡ part_of c LeftWay (plain_part said.now) }
    ensures proper { (c : PlainCase) → IsProperPart c said.now → IfSome result (IsProper c) }
{
    match said.formula {
        ClosedFormula::And(part, _) => {
            if said.plus {
                Some(said_of(&said.env, true, part))
            } else {
                None
            }
        }
        ClosedFormula::Or(part, _) => {
            if said.plus {
                None
            } else {
                Some(said_of(&said.env, false, part))
            }
        }
        ClosedFormula::Implies(part, _) => {
            if said.plus {
                None
            } else {
                Some(said_of(&said.env, true, part))
            }
        }
        _ => None,
    }
}

/// The right side, where it holds with the whole.
fn right<'a>(said: &Said<'a>) -> Option<Fact<'a>>
    ensures is { (c : PlainCase) → option_map plain_fact result ≡ part_of c RightWay (plain_part said.now) }
    ensures proper { (c : PlainCase) → IsProperPart c said.now → IfSome result (IsProper c) }
{
    match said.formula {
        ClosedFormula::And(_, part) => {
            if said.plus {
                Some(said_of(&said.env, true, part))
            } else {
                None
            }
        }
        ClosedFormula::Or(_, part) | ClosedFormula::Implies(_, part) => {
            if said.plus {
                None
            } else {
                Some(said_of(&said.env, false, part))
            }
        }
        _ => None,
    }
}

/// What a `~` stands before, with the other sign.
fn part_of_not<'a>(said: &Said<'a>) -> Option<Fact<'a>>
    ensures is { (c : PlainCase) → option_map plain_fact result ≡ part_of c NotWay (plain_part said.now) }
    ensures proper { (c : PlainCase) → IsProperPart c said.now → IfSome result (IsProper c) }
{
    match said.formula {
        ClosedFormula::Not(body) => Some(said_of(&said.env, !said.plus, body)),
        _ => None,
    }
}

/// The body of a binding.
fn part_of_bind<'a>(said: &Said<'a>) -> Option<Fact<'a>>
    requires { (c : PlainCase) × IsProperPart c said.now }
    ensures is { (c : PlainCase) → option_map plain_fact result ≡ part_of c BindWay (plain_part said.now) }
    ensures proper { (c : PlainCase) → IsProperPart c said.now → IfSome result (IsProper c) }
{
    match said.formula {
        ClosedFormula::Bind { args, body } => Some(Fact::Said(Said {
            plus: said.plus,
            formula: body,
            env: with_values(&said.env, args),
            start: 0,
        })),
        _ => None,
    }
}

/// The place of a value in the range of this sort; None where it is of another sort.
fn place_of(sort: Sort, value: Instance) -> Option<u64>
    ensures { result ≡ place_of_value sort value }
{
    match (sort, value) {
        (Sort::Microop, Instance::Op(place)) => Some(place),
        (Sort::Core, Instance::Core(core)) => Some(core),
        _ => None,
    }
}

/// The body of a quantifier at a value of its range.
fn at_value<'a>(
    case: &Case,
    said: &Said<'a>,
    sort: Sort,
    body: &'a ClosedFormula,
    value: Instance,
) -> Option<Fact<'a>>
    requires room { length said.now.env.items < MAX_VARIABLES }
    requires closed { IsClosed (with_sort (scope_of said.now.env.items) sort) (plain_closed body.now) }
    requires range { AreInRange case.now said.now.env.items }
    ensures is { option_map plain_fact result ≡ said_at case.now said.now.plus sort (plain_closed body.now)
        (meanings said.now.env.items) (place_of_value sort value) }
    ensures proper { IfSome result (IsProper case.now) }
{
    match place_of(sort, value) {
        Some(place) => at_place(case, said, sort, body, place),
        None => None,
    }
}

/// The body of a quantifier at a value of its range, where it holds with the whole.
fn instance<'a>(case: &Case, said: &Said<'a>, value: Instance) -> Option<Fact<'a>>
    requires { IsProperPart case.now said.now }
    ensures is { option_map plain_fact result ≡ part_of case.now (InstWay value) (plain_part said.now) }
    ensures proper { IfSome result (IsProper case.now) }
{
    match said.formula {
        ClosedFormula::Forall { sort, body } => {
            if said.plus {
                at_value(case, said, *sort, body, value)
            } else {
                None
            }
        }
        ClosedFormula::Exists { sort, body } => {
            if said.plus {
                None
            } else {
                at_value(case, said, *sort, body, value)
            }
        }
        _ => None,
    }
}

/// The member at this place of a list that is said to hold.
fn member<'a>(case: &Case, said: &Said<'a>, place: u64) -> Option<Fact<'a>>
    requires { IsProperPart case.now said.now }
    ensures is { option_map plain_fact result ≡ part_of case.now (MemberWay place) (plain_part said.now) }
    ensures proper { IfSome result (IsProper case.now) }
{
    match said.formula {
        ClosedFormula::Nodes(nodes) => {
            if said.plus {
                node_member(case, said, nodes, place)
            } else {
                None
            }
        }
        ClosedFormula::Edges(edges) => {
            if said.plus {
                edge_member(case, said, edges, place)
            } else {
                None
            }
        }
        _ => None,
    }
}

/// The part of a fact that is named so, which holds where the fact does; None where it has no such part. Takes no
/// memory.
pub fn part<'a>(case: &Case, fact: &Fact<'a>, way: Way) -> Option<Fact<'a>>
    requires { IsProper case.now fact.now }
    ensures is { option_map plain_fact result ≡ part_of case.now way (plain_fact fact.now) }
    ensures proper { IfSome result (IsProper case.now) }
{
    match fact {
        Fact::Said(said) => part_of_said(case, said, way),
        _ => None,
    }
}

/// The part of a formula that is named so.
fn part_of_said<'a>(case: &Case, said: &Said<'a>, way: Way) -> Option<Fact<'a>>
    requires { IsProperPart case.now said.now }
    ensures is { option_map plain_fact result ≡ part_of case.now way (plain_part said.now) }
    ensures proper { IfSome result (IsProper case.now) }
{
    match way {
        Way::Left => left(said),
        Way::Right => right(said),
        Way::Not => part_of_not(said),
        Way::Bind => part_of_bind(said),
        Way::Inst(value) => instance(case, said, value),
        Way::Member(place) => member(case, said, place),
    }
}
