ghost use Rattle.std.specs.Prelude.{◌≡◌, ◌<◌, length, Some, slice_get};
ghost use Rattle.pc_syntax.specs.Closed.{plain_closed};
ghost use Rattle.lifted_facts.specs.PlainFacts.{plain_fact, plain_part, IsProper};
ghost use Rattle.lifted_facts.specs.Parts.{part_of};
ghost use Rattle.lifter.specs.PartLists.{parts};
ghost use Rattle.lifter.specs.WayTable.{instance_at as instance_of, side_at as side_of, way_of};

use lifted_facts::{Fact, Instance, Said, Way, part};
use pc_case::Case;
use pc_syntax::{ClosedFormula, Sort};
use static_preds::range_len;

/// How many parts a formula has that hold with it.
fn said_count(case: &Case, said: &Said<'_>) -> usize
    ensures { result ≡ length (parts case.now (plain_part said.now)) }
{
    match said.formula {
        ClosedFormula::Not(_) => 1,
        ClosedFormula::And(_, _) => { if said.plus { 2 } else { 0 } }
        ClosedFormula::Or(_, _) => { if said.plus { 0 } else { 2 } }
        ClosedFormula::Implies(_, _) => { if said.plus { 0 } else { 2 } }
        ClosedFormula::Forall { sort, .. } => {
            if said.plus {
                range_len(case, *sort) as usize
            } else {
                0
            }
        }
        ClosedFormula::Exists { sort, .. } => {
            if said.plus {
                0
            } else {
                range_len(case, *sort) as usize
            }
        }
        ClosedFormula::Static { .. } => 0,
        ClosedFormula::Nodes(nodes) => { if said.plus { nodes.len() } else { 0 } }
        ClosedFormula::Edges(edges) => { if said.plus { edges.len() } else { 0 } }
        ClosedFormula::Bind { .. } => 1,
    }
}

/// How many parts a fact has that hold with it. Takes no memory.
pub fn part_count(case: &Case, fact: &Fact<'_>) -> usize
    ensures { result ≡ length (parts case.now (plain_fact fact.now)) }
{
    match fact {
        Fact::Said(said) => said_count(case, said),
        _ => 0,
    }
}

/// The value at a place of a range.
fn instance_at(sort: Sort, k: usize) -> Instance
    ensures { result ≡ instance_of sort k }
{
    match sort {
        Sort::Microop => Instance::Op(k as u64),
        Sort::Core => Instance::Core(k as u64),
    }
}

/// Which of two sides stands at this place.
fn side_at(k: usize) -> Way
    ensures { result ≡ side_of k }
{
    if k == 0 { Way::Left } else { Way::Right }
}

/// How the part of a formula at this place is named.
fn way_at(formula: &ClosedFormula, k: usize) -> Way
    ensures { result ≡ way_of (plain_closed formula.now) k }
{
    match formula {
        ClosedFormula::Not(_) => Way::Not,
        ClosedFormula::And(_, _) => side_at(k),
        ClosedFormula::Or(_, _) => side_at(k),
        ClosedFormula::Implies(_, _) => side_at(k),
        ClosedFormula::Forall { sort, .. } => Way::Inst(instance_at(*sort, k)),
        ClosedFormula::Exists { sort, .. } => Way::Inst(instance_at(*sort, k)),
        ClosedFormula::Static { .. } => Way::Not,
        ClosedFormula::Nodes(_) => Way::Member(k as u64),
        ClosedFormula::Edges(_) => Way::Member(k as u64),
        ClosedFormula::Bind { .. } => Way::Bind,
    }
}

/// The part of a fact at a place among its parts, from 0, with how it is named. Takes no memory.
pub fn part_at<'a>(case: &Case, fact: &Fact<'a>, k: usize) -> (Way, Fact<'a>)
    requires proper { IsProper case.now fact.now }
    requires within { k < length (parts case.now (plain_fact fact.now)) }
    ensures is { part_of case.now result.0 (plain_fact fact.now) ≡ Some (plain_fact result.1) }
    ensures member { slice_get (parts case.now (plain_fact fact.now)) k ≡ Some (plain_fact result.1) }
    ensures proper { IsProper case.now result.1 }
{
    let Fact::Said(said) = fact else {
        unreachable!()
    };
    let way = way_at(said.formula, k);
    match part(case, fact, way) {
        Some(part) => (way, part),
        None => unreachable!(),
    }
}
