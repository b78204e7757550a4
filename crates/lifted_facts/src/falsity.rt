ghost use Rattle.std.specs.Prelude.{◌≡◌, length, nat_lt, not};
ghost use Rattle.pc_syntax.specs.Truth.{range_of};
ghost use Rattle.lifted_facts.specs.PlainFacts.{plain_fact, plain_part, IsProper, IsProperPart};
ghost use Rattle.lifted_facts.specs.Parts.{is_false as is_false_of};

use super::fact::{Fact, Said};
use pc_case::Case;
use pc_syntax::{ClosedFormula, Sort};
use static_preds::{holds, range_len};

/// Whether no place of the range is left.
fn is_past(case: &Case, said: &Said<'_>, sort: Sort) -> bool
    ensures { result ≡ not (nat_lt said.now.start (length (range_of case.now sort))) }
{
    said.start >= range_len(case, sort) as usize
}

/// Whether a formula holds in no world by itself.
fn is_false_said(case: &Case, said: &Said<'_>) -> bool
    requires { IsProperPart case.now said.now }
    ensures { result ≡ is_false_of case.now (plain_part said.now) }
{
    match said.formula {
        ClosedFormula::Exists { sort, .. } => said.plus && is_past(case, said, *sort),
        ClosedFormula::Forall { sort, .. } => !said.plus && is_past(case, said, *sort),
        ClosedFormula::Nodes(nodes) => !said.plus && said.start >= nodes.len(),
        ClosedFormula::Edges(edges) => !said.plus && said.start >= edges.len(),
        ClosedFormula::Static { pred, args } => holds(case, *pred, args, &said.env) != said.plus,
        _ => false,
    }
}

/// Whether a fact holds in no world by itself: it is said of some member of a range or list of which none is left, or
/// a predicate is against the sign. Takes no memory.
pub fn is_false(case: &Case, fact: &Fact<'_>) -> bool
    requires { IsProper case.now fact.now }
    ensures { result ≡ is_false_of case.now (plain_fact fact.now) }
{
    match fact {
        Fact::Said(said) => is_false_said(case, said),
        _ => false,
    }
}
