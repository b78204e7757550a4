ghost use Rattle.std.specs.Prelude.{◌≡◌, ◌<◌, ◌+◌, length, Some, IfOk, OnOk, MatchOption};
ghost use Rattle.pc_common.specs.World.{Node};
ghost use Rattle.pc_ground.specs.Keys.{literal_node};
ghost use Rattle.pc_ground.specs.Rows.{IsPart};
ghost use Rattle.pc_ground.specs.Tree.{leaf, always};
ghost use Rattle.lifted_facts.specs.PlainFacts.{plain_fact, IsProper};
ghost use Rattle.lifted_facts.specs.Parts.{sides as sides_of};
ghost use Rattle.lifted_facts.specs.Lifted.{HasFact};
ghost use Rattle.lifter.specs.Trees.{fact_tree};
ghost use Rattle.lifter.specs.Kinds.{kind_of};
ghost use Rattle.lifter.specs.PartLists.{IsSaid, parts, parts_from};
ghost use Rattle.lifter.specs.declared.kind.FactKind.TheVariants.{Open};
ghost use Rattle.lifter.specs.States.{branch_of};
ghost use Rattle.lifter.specs.Unfoldings.{fact_of, HasUnfolded, HasTaken};

use super::fact_kind::{kind_of_fact, last_open};
use super::kind::FactKind;
use super::listed_parts::part_at;
use super::moving::{derive, lose_first, lose_second, mark};
use super::rows::right_of;
use super::state::State;
use lifted_facts::{Fact, sides};
use pc_case::Case;
use pc_common::Memory;
use pc_ground::{Flat, Literal, NodeKey};
use refutation::BranchFact;

/// The literal that a fact is, None where it is a part of an axiom.
fn literal_of(fact: &Fact<'_>) -> Option<Literal<NodeKey>>
    ensures { MatchOption result (IsSaid (plain_fact fact.now)) (λ l. plain_fact fact.now ≡ fact_of (literal_node l)) }
{
    match fact {
        Fact::Said(_) => None,
        Fact::Node { plus, node } => {
            if *plus {
                Some(Literal::Node(*node))
            } else {
                Some(Literal::NoNode(*node))
            }
        }
        Fact::Edge { plus, from, to } => {
            if *plus {
                Some(Literal::Edge(*from, *to))
            } else {
                Some(Literal::NoEdge(*from, *to))
            }
        }
    }
}

/// Knows all that a literal says, which is the fact of this number.
fn mark_literal<'a>(
    case: &Case,
    tree: &Flat,
    state: &mut State<'a>,
    literal: Literal<NodeKey>,
    number: u64,
    at: usize,
) -> Result<(), Memory>
    requires has { HasFact (branch_of state.old) number (fact_of (literal_node literal)) }
    requires stands { IsPart tree.now at (leaf (literal_node literal)) }
    ensures { OnOk result (HasUnfolded case.now tree.now (leaf (literal_node literal)) at state.old state.new) }
{
    // the contract alone speaks of it
    let _stands = tree;
    match literal {
        Literal::Node(a) => mark(case, state, BranchFact::Present(a), number),
        Literal::Edge(a, b) => {
            mark(case, state, BranchFact::Edge(a, b), number)?;
            mark(case, state, BranchFact::Present(a), number)?;
            mark(case, state, BranchFact::Present(b), number)
        }
        Literal::NoNode(a) => mark(case, state, BranchFact::NoNode(a), number),
        Literal::NoEdge(a, b) => mark(case, state, BranchFact::NoEdge(a, b), number),
    }
}

/// Unfolds the fact of this number, whose tree is no constant and stands at `at` in the ground tree: And is taken
/// apart, and what then stands there, an Or or a literal, is known.
#[cycle(unfold)]
pub(crate) fn unfold<'a>(
    case: &Case,
    tree: &Flat,
    state: &mut State<'a>,
    fact: &Fact<'a>,
    number: u64,
    at: usize,
) -> Result<(), Memory>
    requires proper { IsProper case.now fact.now }
    requires has { HasFact (branch_of state.old) number (plain_fact fact.now) }
    requires kind { kind_of (fact_tree case.now (plain_fact fact.now)) ≡ Open }
    requires stands { IsPart tree.now at (fact_tree case.now (plain_fact fact.now)) }
    ensures { OnOk result
        (HasUnfolded case.now tree.now (fact_tree case.now (plain_fact fact.now)) at state.old state.new) }
{
    match literal_of(fact) {
        Some(literal) => mark_literal(case, tree, state, literal, number, at),
        None => match sides(case, fact) {
            Some((first, second)) => {
                unfold_either(case, tree, state, fact, &first, &second, number, at)
            }
            None => unfold_all(case, tree, state, fact, number, at),
        },
    }
}

/// Unfolds a fact with two sides: a side that is False is closed, or waits for that.
#[cycle(unfold)]
fn unfold_either<'a>(
    case: &Case,
    tree: &Flat,
    state: &mut State<'a>,
    fact: &Fact<'a>,
    first: &Fact<'a>,
    second: &Fact<'a>,
    number: u64,
    at: usize,
) -> Result<(), Memory>
    requires first_proper { IsProper case.now first.now }
    requires second_proper { IsProper case.now second.now }
    requires are { sides_of case.now (plain_fact fact.now) ≡ Some (plain_fact first.now, plain_fact second.now) }
    requires has { HasFact (branch_of state.old) number (plain_fact fact.now) }
    requires kind { kind_of (fact_tree case.now (plain_fact fact.now)) ≡ Open }
    requires stands { IsPart tree.now at (fact_tree case.now (plain_fact fact.now)) }
    ensures { OnOk result
        (HasUnfolded case.now tree.now (fact_tree case.now (plain_fact fact.now)) at state.old state.new) }
{
    // the contract alone speaks of it
    let _whole = fact;
    match kind_of_fact(case, first) {
        FactKind::Open => match kind_of_fact(case, second) {
            FactKind::Open => mark(case, state, BranchFact::At(false, at), number),
            _ => {
                let next = lose_second(case, state, number, first, second)?;
                unfold(case, tree, state, first, next, at)
            }
        },
        _ => {
            let next = lose_first(case, state, number, first, second)?;
            unfold(case, tree, state, second, next, at)
        }
    }
}

/// Unfolds each part of a fact that holds where all of them do. Parts that are True are passed over.
#[cycle(unfold)]
fn unfold_all<'a>(
    case: &Case,
    tree: &Flat,
    state: &mut State<'a>,
    fact: &Fact<'a>,
    number: u64,
    at: usize,
) -> Result<(), Memory>
    requires proper { IsProper case.now fact.now }
    requires has { HasFact (branch_of state.old) number (plain_fact fact.now) }
    requires kind { kind_of (parts_from case.now (plain_fact fact.now) 0) ≡ Open }
    requires stands { IsPart tree.now at (parts_from case.now (plain_fact fact.now) 0) }
    ensures { OnOk result
        (HasUnfolded case.now tree.now (parts_from case.now (plain_fact fact.now) 0) at state.old state.new) }
{
    let last = last_open(case, fact);
    let mut at = at;
    for k in 0..last {
        at = unfold_next(case, tree, state, fact, number, k, at)?;
    }
    unfold_last(case, tree, state, fact, number, last, at)
}

/// Unfolds the part at a place, after which some part is no constant. Returns where the parts after it stand.
#[cycle(unfold)]
fn unfold_next<'a>(
    case: &Case,
    tree: &Flat,
    state: &mut State<'a>,
    fact: &Fact<'a>,
    number: u64,
    k: usize,
    at: usize,
) -> Result<usize, Memory>
    requires proper { IsProper case.now fact.now }
    requires has { HasFact (branch_of state.old) number (plain_fact fact.now) }
    requires within { k < length (parts case.now (plain_fact fact.now)) }
    requires kind { kind_of (parts_from case.now (plain_fact fact.now) k) ≡ Open }
    requires rest { kind_of (parts_from case.now (plain_fact fact.now) (k + 1)) ≡ Open }
    requires stands { IsPart tree.now at (parts_from case.now (plain_fact fact.now) k) }
    ensures { IfOk result
        (λ next. HasTaken case.now tree.now (parts case.now (plain_fact fact.now)) k at next state.old state.new) }
{
    let named = part_at(case, fact, k);
    match kind_of_fact(case, &named.1) {
        FactKind::Open => {
            let right = right_of(tree, at);
            let next = derive(case, state, named.0, number, &named.1)?;
            unfold(case, tree, state, &named.1, next, at + 1)?;
            Ok(right)
        }
        _ => Ok(at),
    }
}

/// Unfolds the last part that is no constant.
#[cycle(unfold)]
fn unfold_last<'a>(
    case: &Case,
    tree: &Flat,
    state: &mut State<'a>,
    fact: &Fact<'a>,
    number: u64,
    k: usize,
    at: usize,
) -> Result<(), Memory>
    requires proper { IsProper case.now fact.now }
    requires has { HasFact (branch_of state.old) number (plain_fact fact.now) }
    requires within { k < length (parts case.now (plain_fact fact.now)) }
    requires kind { kind_of (parts_from case.now (plain_fact fact.now) k) ≡ Open }
    requires rest { parts_from case.now (plain_fact fact.now) (k + 1) ≡ always }
    requires stands { IsPart tree.now at (parts_from case.now (plain_fact fact.now) k) }
    ensures { OnOk result
        (HasUnfolded case.now tree.now (parts_from case.now (plain_fact fact.now) k) at state.old state.new) }
{
    let named = part_at(case, fact, k);
    let next = derive(case, state, named.0, number, &named.1)?;
    unfold(case, tree, state, &named.1, next, at)
}
