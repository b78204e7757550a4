ghost use Rattle.std.specs.Prelude.{◌≡◌, ◌-◌};
ghost use Rattle.lifted_facts.specs.PlainFacts.{plain_part, IsProperPart};
ghost use Rattle.lifter.specs.Trees.{fact_tree};
ghost use Rattle.lifter.specs.Kinds.{kind_of};

use super::formula_kind::{kind_of_count, kind_of_formula, kind_of_range};
use super::kind::FactKind;
use lifted_facts::Said;
use pc_case::Case;
use pc_syntax::ClosedFormula;

/// How many places there are from the start on.
fn left(start: usize, count: usize) -> usize
    ensures { result ≡ count - start }
{
    if start < count { count - start } else { 0 }
}

/// Which constant a part of an axiom is, from its start on. Takes no memory.
pub(crate) fn kind_of_said(case: &Case, said: &Said<'_>) -> FactKind
    requires { IsProperPart case.now said.now }
    ensures { result ≡ kind_of (fact_tree case.now (plain_part said.now)) }
{
    let start = said.start;
    match said.formula {
        ClosedFormula::Exists { sort, body } => {
            if said.plus {
                kind_of_range(case, &said.env, false, true, *sort, body, start)
            } else {
                kind_of_formula(case, &said.env, false, said.formula)
            }
        }
        ClosedFormula::Forall { sort, body } => {
            if said.plus {
                kind_of_formula(case, &said.env, true, said.formula)
            } else {
                kind_of_range(case, &said.env, false, false, *sort, body, start)
            }
        }
        ClosedFormula::Nodes(nodes) => {
            if said.plus {
                kind_of_count(true, nodes.len())
            } else {
                kind_of_count(false, left(start, nodes.len()))
            }
        }
        ClosedFormula::Edges(edges) => {
            if said.plus {
                kind_of_count(true, edges.len())
            } else {
                kind_of_count(false, left(start, edges.len()))
            }
        }
        _ => kind_of_formula(case, &said.env, said.plus, said.formula),
    }
}
