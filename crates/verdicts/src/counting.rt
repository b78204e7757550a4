// How many steps of a refutation are splits, and how many are leaves.
ghost use Rattle.std.specs.Prelude.{◌≡◌, ◌≤◌, length, if◌then◌else◌};
ghost use Rattle.refutation.specs.Steps.{plain_step};
ghost use Rattle.verdicts.specs.StepCounts.{splits, splits_of, leaves_of, splits_found, leaves_found};

use refutation::{Refutation, Step};
use solver::Answer as Found;

/// How many steps of what was found split a branch, and how many close one; a graph has neither.
#[derive(Clone, Copy)]
pub struct Counts {
    pub splits: usize,
    pub leaves: usize,
}

/// How many branches the step splits, 1 or 0.
fn splits_in(step: &Step) -> usize
    ensures count { result ≡ (if splits (plain_step step.now) then 1 else 0) }
    ensures bound { result ≤ 1 }
{
    match step {
        Step::Split { .. } => 1,
        _ => 0,
    }
}

/// How many steps split a branch.
fn count_splits(steps: &Refutation) -> usize
    ensures count { result ≡ splits_of steps.now }
    ensures bound { result ≤ length steps.now }
{
    let mut splits = 0;
    for k in 0..steps.len() {
        splits += splits_in(steps.step(k));
    }
    splits
}

/// Counts the steps.
fn count_steps(steps: &Refutation) -> Counts
    ensures splits { result.splits ≡ splits_of steps.now }
    ensures leaves { result.leaves ≡ leaves_of steps.now }
{
    let splits = count_splits(steps);
    Counts {
        splits,
        leaves: steps.len() - splits,
    }
}

/// Counts the steps of what was found. A graph has none.
pub fn count_found(found: &Found) -> Counts
    ensures splits { result.splits ≡ splits_found found.now }
    ensures leaves { result.leaves ≡ leaves_found found.now }
{
    match found {
        Found::Observable(_) => Counts {
            splits: 0,
            leaves: 0,
        },
        Found::Unobservable(steps) => count_steps(steps),
    }
}
