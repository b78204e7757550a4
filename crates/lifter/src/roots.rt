ghost use Rattle.std.specs.Prelude.{ℕ, ◌≡◌, ◌∷◌, ◌<◌, ◌+◌, All, List, [], map, length, true, Some, slice_get, IfOk, OnOk};
ghost use Rattle.pc_common.specs.Case.{Case as PlainCase};
ghost use Rattle.pc_syntax.specs.Closed.{plain_closed};
ghost use Rattle.pc_ground.specs.Rows.{IsPart};
ghost use Rattle.pc_ground.specs.Tree.{always};
ghost use Rattle.pc_ground.specs.Stages.{plain_axioms};
ghost use Rattle.lifted_facts.specs.PlainFacts.{PlainFact, Branch, said, root, plain_fact, IsProper};
ghost use Rattle.lifted_facts.specs.Lifted.{HasFact, Runs};
ghost use Rattle.lifter.specs.Trees.{fact_tree};
ghost use Rattle.lifter.specs.Kinds.{kind_of};
ghost use Rattle.lifter.specs.declared.kind.FactKind.TheVariants.{False, Open};
ghost use Rattle.lifter.specs.States.{branch_of, AreKept};
ghost use Rattle.lifter.specs.PartLists.{facts_from};
ghost use Rattle.lifter.specs.Unfoldings.{HasUnfolded, HasTaken};

use super::closing::close;
use super::fact_kind::kind_of_fact;
use super::kind::FactKind;
use super::known::Known;
use super::line::LiftedSteps;
use super::rows::right_of;
use super::state::State;
use super::unfolding::unfold;
use lifted_facts::{Fact, Said};
use pc_case::Case;
use pc_common::Memory;
use pc_ground::Flat;
use pc_syntax::{Closed, Env};
use std::alloc::Global;

/// An axiom as a fact.
fn axiom_fact<'a>(closed: &'a Closed) -> Fact<'a>
    ensures is { plain_fact result ≡ said true (plain_closed closed.now.body) [] 0 }
    ensures proper { (c : PlainCase) → IsProper c result }
{
    Fact::Said(Said {
        plus: true,
        formula: &closed.body,
        env: Env::new(),
        start: 0,
    })
}

/// The axioms as facts, in their order.
fn axiom_facts<'a>(alloc: Global, axioms: &'a [Closed]) -> Result<Vec<Fact<'a>>, Memory>
    ensures are { IfOk result (λ facts. map plain_fact facts.items ≡ root (plain_axioms axioms.now)) }
    ensures proper { (c : PlainCase) → IfOk result (λ facts. All (IsProper c) facts.items) }
{
    let mut facts = Vec::new(alloc);
    for axiom in axioms {
        facts.push(axiom_fact(axiom))?;
    }
    Ok(facts)
}

/// The state before the first step, with the axioms as the facts of the one branch.
pub(crate) fn begin<'a>(alloc: Global, axioms: &'a [Closed]) -> Result<State<'a>, Memory>
    ensures facts { IfOk result (λ s. branch_of s ≡ root (plain_axioms axioms.now)) }
    ensures none { IfOk result (λ s. (s.known ≡ []) × (s.later.items ≡ []) × (s.steps ≡ [])) }
    ensures kept { (c : PlainCase) → IfOk result (AreKept c) }
{
    Ok(State {
        facts: axiom_facts(alloc, axioms)?,
        known: Known::new(alloc),
        later: Vec::new(alloc),
        steps: LiftedSteps::new(alloc),
    })
}

/// The first axiom that is False, of which there is one, with its place.
fn false_axiom<'a>(case: &Case, axioms: &'a [Closed]) -> (usize, Fact<'a>)
    requires { kind_of (facts_from case.now (root (plain_axioms axioms.now)) 0) ≡ False }
    ensures is { slice_get (root (plain_axioms axioms.now)) result.0 ≡ Some (plain_fact result.1) }
    ensures kind { kind_of (fact_tree case.now (plain_fact result.1)) ≡ False }
    ensures proper { IsProper case.now result.1 }
{
    for k in 0..axioms.len() {
        let fact = axiom_fact(&axioms[k]);
        match kind_of_fact(case, &fact) {
            FactKind::False => return (k, fact),
            _ => {}
        }
    }
    unreachable!()
}

/// The place of the last axiom that is no constant, of which there is one.
fn last_axiom(case: &Case, axioms: &[Closed]) -> usize
    requires { kind_of (facts_from case.now (root (plain_axioms axioms.now)) 0) ≡ Open }
    ensures within { result < length axioms.now }
    ensures rest { facts_from case.now (root (plain_axioms axioms.now)) (result + 1) ≡ always }
    ensures up_to { (j : ℕ) → j < result + 1 → kind_of (facts_from case.now (root (plain_axioms axioms.now)) j) ≡ Open }
{
    for k in 0..axioms.len() {
        let at = axioms.len() - 1 - k;
        let fact = axiom_fact(&axioms[at]);
        match kind_of_fact(case, &fact) {
            FactKind::Open => return at,
            _ => {}
        }
    }
    unreachable!()
}

/// Unfolds the axiom at a place, after which some axiom is no constant. Returns where the axioms after it stand.
fn unfold_next_axiom<'a>(
    case: &Case,
    tree: &Flat,
    state: &mut State<'a>,
    axioms: &'a [Closed],
    k: usize,
    at: usize,
) -> Result<usize, Memory>
    requires within { k < length axioms.now }
    requires has { (f : PlainFact)
        → slice_get (root (plain_axioms axioms.now)) k ≡ Some f → HasFact (branch_of state.old) k f }
    requires kind { kind_of (facts_from case.now (root (plain_axioms axioms.now)) k) ≡ Open }
    requires rest { kind_of (facts_from case.now (root (plain_axioms axioms.now)) (k + 1)) ≡ Open }
    requires stands { IsPart tree.now at (facts_from case.now (root (plain_axioms axioms.now)) k) }
    ensures { IfOk result
        (λ next. HasTaken case.now tree.now (root (plain_axioms axioms.now)) k at next state.old state.new) }
{
    let fact = axiom_fact(&axioms[k]);
    match kind_of_fact(case, &fact) {
        FactKind::Open => {
            let right = right_of(tree, at);
            unfold(case, tree, state, &fact, k as u64, at + 1)?;
            Ok(right)
        }
        _ => Ok(at),
    }
}

/// Unfolds the axioms, of which some is no constant and none is False.
pub(crate) fn unfold_axioms<'a>(
    case: &Case,
    tree: &Flat,
    state: &mut State<'a>,
    axioms: &'a [Closed],
) -> Result<(), Memory>
    requires facts { branch_of state.old ≡ root (plain_axioms axioms.now) }
    requires kind { kind_of (facts_from case.now (root (plain_axioms axioms.now)) 0) ≡ Open }
    requires stands { IsPart tree.now 0 (facts_from case.now (root (plain_axioms axioms.now)) 0) }
    ensures { OnOk result
        (HasUnfolded case.now tree.now (facts_from case.now (root (plain_axioms axioms.now)) 0) 0 state.old state.new) }
{
    let last = last_axiom(case, axioms);
    let mut at = 0;
    for k in 0..last {
        at = unfold_next_axiom(case, tree, state, axioms, k, at)?;
    }
    let fact = axiom_fact(&axioms[last]);
    unfold(case, tree, state, &fact, last as u64, at)
}

/// Closes the one branch of no step by an axiom that is False, of which there is one.
pub(crate) fn close_axiom(
    case: &Case,
    state: &mut State<'_>,
    axioms: &[Closed],
) -> Result<(), Memory>
    requires facts { branch_of state.old ≡ root (plain_axioms axioms.now) }
    requires kind { kind_of (facts_from case.now (root (plain_axioms axioms.now)) 0) ≡ False }
    ensures { OnOk result
        ((start opens : List Branch) → Runs case.now state.old.steps start (root (plain_axioms axioms.now) ∷ opens)
        → Runs case.now state.new.steps start opens) }
{
    let found = false_axiom(case, axioms);
    let count = state.facts.len() as u64;
    close(case, &found.1, found.0 as u64, count, &mut state.steps)
}
