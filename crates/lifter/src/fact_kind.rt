ghost use Rattle.std.specs.Prelude.{ℕ, ◌≡◌, ◌<◌, ◌+◌, length, Some};
ghost use Rattle.pc_ground.specs.Tree.{always};
ghost use Rattle.lifted_facts.specs.PlainFacts.{plain_fact, IsProper};
ghost use Rattle.lifted_facts.specs.Parts.{part_of};
ghost use Rattle.lifter.specs.Trees.{fact_tree};
ghost use Rattle.lifter.specs.Kinds.{kind_of};
ghost use Rattle.lifter.specs.PartLists.{parts, parts_from};
ghost use Rattle.lifter.specs.declared.kind.FactKind.TheVariants.{False, Open};

use super::kind::FactKind;
use super::listed_parts::{part_at, part_count};
use super::said_kind::kind_of_said;
use lifted_facts::{Fact, Way};
use pc_case::Case;

/// Which constant a fact is. Takes no memory.
pub fn kind_of_fact(case: &Case, fact: &Fact<'_>) -> FactKind
    requires { IsProper case.now fact.now }
    ensures { result ≡ kind_of (fact_tree case.now (plain_fact fact.now)) }
{
    match fact {
        Fact::Said(said) => kind_of_said(case, said),
        Fact::Node { .. } => FactKind::Open,
        Fact::Edge { .. } => FactKind::Open,
    }
}

/// A part that is False, with how it is named, of a fact that is False for one. Takes no memory.
pub fn false_part<'a>(case: &Case, fact: &Fact<'a>) -> (Way, Fact<'a>)
    requires proper { IsProper case.now fact.now }
    requires kind { kind_of (parts_from case.now (plain_fact fact.now) 0) ≡ False }
    ensures is { part_of case.now result.0 (plain_fact fact.now) ≡ Some (plain_fact result.1) }
    ensures kind { kind_of (fact_tree case.now (plain_fact result.1)) ≡ False }
    ensures proper { IsProper case.now result.1 }
{
    for k in 0..part_count(case, fact) {
        let named = part_at(case, fact, k);
        match kind_of_fact(case, &named.1) {
            FactKind::False => return named,
            _ => {}
        }
    }
    unreachable!()
}

/// The place of the last part that is no constant, of a fact that is none and holds where all parts do. Takes no memory.
pub fn last_open(case: &Case, fact: &Fact<'_>) -> usize
    requires proper { IsProper case.now fact.now }
    requires kind { kind_of (parts_from case.now (plain_fact fact.now) 0) ≡ Open }
    ensures within { result < length (parts case.now (plain_fact fact.now)) }
    ensures rest { parts_from case.now (plain_fact fact.now) (result + 1) ≡ always }
    ensures up_to { (j : ℕ) → j < result + 1 → kind_of (parts_from case.now (plain_fact fact.now) j) ≡ Open }
{
    let count = part_count(case, fact);
    for k in 0..count {
        let at = count - 1 - k;
        let named = part_at(case, fact, at);
        match kind_of_fact(case, &named.1) {
            FactKind::Open => return at,
            _ => {}
        }
    }
    unreachable!()
}
