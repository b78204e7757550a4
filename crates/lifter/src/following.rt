ghost use Rattle.std.specs.Prelude.{◌≡◌, ◌+◌, List, [], true, IfOk, OnOk};
ghost use Rattle.pc_ground.specs.Rows.{rows_of};
ghost use Rattle.pc_ground.specs.GroundTree.{closed_ground_tree};
ghost use Rattle.pc_ground.specs.Stages.{plain_axioms};
ghost use Rattle.pc_ground.specs.Refutes.{IsRefutation};
ghost use Rattle.pc_ground.specs.declared.version.Version.TheVariants.{One};
ghost use Rattle.refutation.specs.Steps.{plain_step};
ghost use Rattle.lifted_facts.specs.PlainFacts.{Branch, root, IsProper};
ghost use Rattle.lifted_facts.specs.Lifted.{Runs, IsLiftedRefutation};
ghost use Rattle.lifter.specs.KnownFacts.{or_at, HasKey};
ghost use Rattle.lifter.specs.States.{branch_of, AreKept, IsGoodState};
ghost use Rattle.lifter.specs.Progress.{HasStepsLeft, IsNextStep, HasTakenStep, AreWaiting, HasGoneOn, CanBeEntered, HasEntered, HasSplitOr};

use super::closing::close_due;
use super::leaves::{add_absent, add_cycle, add_path};
use super::line::{LiftedSteps, Line};
use super::moving::copy_fact;
use super::roots::{begin, close_axiom, unfold_axioms};
use super::rows::right_of;
use super::state::{Later, State, Task};
use super::unfolding::unfold;
use lifted_facts::sides;
use pc_case::Case;
use pc_common::Memory;
use pc_ground::{Flat, RowKind};
use pc_syntax::Closed;
use refutation::{BranchFact, Refutation, Step};
use std::alloc::Global;

/// Splits the fact of the Or at this position, which is known: the first side is unfolded, and the second one waits.
fn split_or<'a>(
    case: &Case,
    tree: &Flat,
    state: &mut State<'a>,
    position: usize,
) -> Result<(), Memory>
    requires kept { AreKept case.now state.old }
    requires good { (start : List Branch) × IsGoodState case.now tree.now start state.old }
    requires known { HasKey state.old.known (or_at position) }
    ensures kept { OnOk result (AreKept case.now state.new) }
    ensures split { OnOk result (HasSplitOr case.now tree.now position state.old state.new) }
{
    let Some(number) = state.known.get(BranchFact::At(false, position)) else {
        unreachable!()
    };
    let Some((first, second)) = sides(case, &state.facts[number as usize]) else {
        unreachable!()
    };
    let right = right_of(tree, position);
    let count = state.facts.len();
    let known = state.known.len();
    state.steps.push(Line::Split(number))?;
    state.later.push(Later {
        count,
        known,
        fact: second,
        task: Task::Side(right),
    })?;
    state.facts.push(copy_fact(&first))?;
    unfold(case, tree, state, &first, count as u64, position + 1)
}

/// Enters a waiting branch, and unfolds the side that it takes, whose root stands at `at`.
fn enter<'a>(
    case: &Case,
    tree: &Flat,
    state: &mut State<'a>,
    next: &Later<'a>,
    at: usize,
) -> Result<(), Memory>
    requires proper { IsProper case.now next.now.fact }
    requires can { CanBeEntered case.now tree.now state.old next.now at }
    ensures kept { OnOk result (AreKept case.now state.old → AreKept case.now state.new) }
    ensures on { OnOk result (HasEntered case.now tree.now state.old state.new next.now at) }
{
    state.facts.truncate(next.count);
    state.known.truncate(next.known);
    state.facts.push(copy_fact(&next.fact))?;
    unfold(case, tree, state, &next.fact, next.count as u64, at)
}

/// Goes on with the next waiting branch that has a side to take. Branches before it are closed by their last facts.
/// False where there is none.
fn go_on<'a>(case: &Case, tree: &Flat, state: &mut State<'a>) -> Result<bool, Memory>
    requires kept { AreKept case.now state.old }
    requires left { AreWaiting case.now tree.now state.old }
    ensures kept { OnOk result (AreKept case.now state.new) }
    ensures at { IfOk result (HasGoneOn case.now tree.now state.old state.new) }
{
    while let Some(next) = state.later.pop() {
        match next.task {
            Task::Close => close_due(case, &next, &mut state.steps)?,
            Task::Side(at) => {
                enter(case, tree, state, &next, at)?;
                return Ok(true);
            }
        }
    }
    Ok(false)
}

/// Takes the next step of the refutation. Returns whether a branch is open after it.
fn take_step<'a>(
    alloc: Global,
    case: &Case,
    tree: &Flat,
    state: &mut State<'a>,
    step: &Step,
) -> Result<bool, Memory>
    requires kept { AreKept case.now state.old }
    requires ahead { IsNextStep case.now tree.now state.old (plain_step step.now) }
    ensures kept { OnOk result (AreKept case.now state.new) }
    ensures ahead { IfOk result (HasTakenStep case.now tree.now state.old state.new (plain_step step.now)) }
{
    match step {
        Step::Split { position, .. } => {
            split_or(case, tree, state, *position as usize)?;
            Ok(true)
        }
        Step::Cycle(nodes) => {
            add_cycle(alloc, state, nodes.as_slice())?;
            go_on(case, tree, state)
        }
        Step::Path(nodes) => {
            add_path(alloc, state, nodes.as_slice())?;
            go_on(case, tree, state)
        }
        Step::Absent(node) => {
            add_absent(state, *node)?;
            go_on(case, tree, state)
        }
        Step::False => unreachable!(),
    }
}

/// Follows a refutation of a tree that is no constant to its end.
fn follow<'a>(
    alloc: Global,
    case: &Case,
    tree: &Flat,
    state: &mut State<'a>,
    refutation: &Refutation,
) -> Result<(), Memory>
    requires kept { AreKept case.now state.old }
    requires ahead { (start : List Branch) × HasStepsLeft case.now tree.now start state.old true refutation.now }
    ensures { OnOk result ((start : List Branch) → HasStepsLeft case.now tree.now start state.old true refutation.now
        → Runs case.now state.new.steps start []) }
{
    let mut is_open = true;
    for k in 0..refutation.len() {
        if !is_open {
            unreachable!()
        }
        is_open = take_step(alloc, case, tree, state, refutation.step(k))?;
    }
    Ok(())
}

/// Adds the steps that close the one branch of no step, whose facts are the axioms.
fn close_all<'a>(
    alloc: Global,
    case: &Case,
    axioms: &'a [Closed],
    tree: &Flat,
    state: &mut State<'a>,
    refutation: &Refutation,
) -> Result<(), Memory>
    requires tree { tree.now ≡ rows_of (closed_ground_tree case.now (plain_axioms axioms.now)) }
    requires refuted { IsRefutation One (closed_ground_tree case.now (plain_axioms axioms.now)) refutation.now }
    requires facts { branch_of state.old ≡ root (plain_axioms axioms.now) }
    requires none { (state.old.known ≡ []) × (state.old.later.items ≡ []) × (state.old.steps ≡ []) }
    requires kept { AreKept case.now state.old }
    ensures { OnOk result (IsLiftedRefutation case.now (plain_axioms axioms.now) state.new.steps) }
{
    match tree.row(0).kind {
        RowKind::False => close_axiom(case, state, axioms),
        _ => {
            unfold_axioms(case, tree, state, axioms)?;
            follow(alloc, case, tree, state, refutation)
        }
    }
}

/// The steps of a lifted refutation of the axioms, made of a refutation of version 1 of their ground tree.
pub fn lift_steps(
    alloc: Global,
    case: &Case,
    axioms: &[Closed],
    tree: &Flat,
    refutation: &Refutation,
) -> Result<LiftedSteps, Memory>
    requires tree { tree.now ≡ rows_of (closed_ground_tree case.now (plain_axioms axioms.now)) }
    requires refuted { IsRefutation One (closed_ground_tree case.now (plain_axioms axioms.now)) refutation.now }
    ensures { IfOk result (λ steps. IsLiftedRefutation case.now (plain_axioms axioms.now) steps) }
{
    let mut state = begin(alloc, axioms)?;
    close_all(alloc, case, axioms, tree, &mut state, refutation)?;
    let State { steps, .. } = state;
    Ok(steps)
}
