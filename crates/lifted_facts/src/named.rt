ghost use Rattle.std.specs.Prelude.{◌≡◌, All, IfSome, MatchOption, map, slice_get};
ghost use Rattle.std.specs.Option.{option_map};
ghost use Rattle.pc_common.specs.Case.{Case as PlainCase};
ghost use Rattle.lifted_facts.specs.PlainFacts.{PlainFact, plain_fact, IsProper};
ghost use Rattle.lifted_facts.specs.Lifted.{HasPart, HasSides};

use super::fact::Fact;
use super::parts::part;
use super::side::sides;
use super::way::Way;
use pc_case::Case;

/// The fact of this number; None where there is none.
pub(crate) fn fact_at<'f, 'a>(facts: &'f [Fact<'a>], number: u64) -> Option<&'f Fact<'a>>
    ensures is { slice_get (map plain_fact facts.now) number ≡ option_map (λ f. plain_fact f.now) result }
    ensures proper { (c : PlainCase) → All (IsProper c) facts.now → IfSome result (λ f. IsProper c f.now) }
{
    facts.get(number as usize)
}

/// A part of the fact of this number; None where there is no such fact, or it has no such part.
pub(crate) fn part_at<'a>(
    case: &Case,
    facts: &[Fact<'a>],
    way: Way,
    number: u64,
) -> Option<Fact<'a>>
    requires { All (IsProper case.now) facts.now }
    ensures is { MatchOption result ((g : PlainFact) → HasPart case.now (map plain_fact facts.now) way number g → ⊥)
        (λ g. HasPart case.now (map plain_fact facts.now) way number (plain_fact g)) }
    ensures proper { IfSome result (IsProper case.now) }
{
    match fact_at(facts, number) {
        Some(fact) => part(case, fact, way),
        None => None,
    }
}

/// The sides of the fact of this number; None where there is no such fact, or it has none.
pub(crate) fn sides_at<'a>(
    case: &Case,
    facts: &[Fact<'a>],
    number: u64,
) -> Option<(Fact<'a>, Fact<'a>)>
    requires { All (IsProper case.now) facts.now }
    ensures is { MatchOption result ((g h : PlainFact) → HasSides case.now (map plain_fact facts.now) number g h → ⊥)
        (λ both. HasSides case.now (map plain_fact facts.now) number (plain_fact both.0) (plain_fact both.1)) }
    ensures proper { IfSome result (λ both. IsProper case.now both.0 × IsProper case.now both.1) }
{
    match fact_at(facts, number) {
        Some(fact) => sides(case, fact),
        None => None,
    }
}
