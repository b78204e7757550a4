//! The search with signs: a model and a test, and the steps of the refutation that `solve` returns; and which steps stay
//! where others were noted as not needed.
ghost use Rattle.std.specs.Prelude.{◌≡◌, ◌<◌};

use example_texts::{
    BOTH_OR_ONE, CHOICES_AND_CORE, EITHER_AND, EITHER_ORDER, EMPTY, ONE, SEVEN_AND_A_FENCE,
    SOME_OP, TWO_FORBIDDEN,
};
use pc_common::Memory;
use pc_front::front;
use pc_ground::{Front, Version};
use refutation::{Cut, Refutation, Step};
use search_trait::search_front;
use solver::Answer;
use std::alloc::Global;
use std::test::Fail;
use tree_check::shorten;

/// A step without its nodes.
#[derive(Clone, Copy, PartialEq, Eq)]
enum Shape {
    Split(u64),
    SplitDenied(u64),
    Cycle,
    Path,
    Absent,
    False,
}

use Shape::{Absent, Cycle, False, Path, Split, SplitDenied};

/// A model, a test, and the steps of the refutation in version 1 and in version 2.
type Row = (
    &'static str,
    &'static str,
    &'static [Shape],
    &'static [Shape],
);

const SOLVED: &[Row] = &[
    (
        BOTH_OR_ONE,
        ONE,
        &[Split(1), Absent, Absent],
        &[Split(1), Absent, Absent],
    ),
    (
        EITHER_ORDER,
        TWO_FORBIDDEN,
        &[Split(1), Path, Path],
        &[Split(1), Path, Path],
    ),
    (SOME_OP, EMPTY, &[False], &[False]),
];

/// The one model here of which the search with signs splits an And that was denied.
const SIGNED: &[Shape] = &[
    Split(1),
    Split(9),
    Absent,
    Path,
    SplitDenied(2),
    Absent,
    Path,
];

fn shape_of(step: &Step) -> Shape {
    match step {
        Step::Split {
            negated: true,
            position,
        } => SplitDenied(*position),
        Step::Split {
            negated: false,
            position,
        } => Split(*position),
        Step::Cycle(_) => Cycle,
        Step::Path(_) => Path,
        Step::Absent(_) => Absent,
        Step::False => False,
    }
}

fn have_shapes(steps: &Refutation, shapes: &[Shape]) -> bool {
    for k in 0..steps.len() {
        if shapes.get(k).copied() != Some(shape_of(steps.step(k))) {
            return false;
        }
    }
    steps.len() == shapes.len()
}

/// Whether the search refutes the model and the test by these steps.
fn is_solved_so(
    alloc: Global,
    (model, test): (&str, &str),
    version: Version,
    shapes: &[Shape],
) -> Result<bool, Memory> {
    if model.len() > 10_000 || test.len() > 10_000 {
        return Ok(false);
    }
    let Ok(front) = front(alloc, model.as_bytes(), test.as_bytes()) else {
        return Ok(false);
    };
    match search_front(alloc, &front, version)? {
        Answer::Unobservable(steps) => Ok(have_shapes(&steps, shapes)),
        Answer::Observable(_) => Ok(false),
    }
}

/// Whether the search refutes them so in both versions.
fn is_solved_so_in_both(alloc: Global, (model, test, plain, signed): Row) -> Result<bool, Memory> {
    Ok(
        is_solved_so(alloc, (model, test), Version::One, plain)?
            && is_solved_so(alloc, (model, test), Version::Two, signed)?,
    )
}

#[test]
fn the_search_returns_these_steps_in_each_version(rt: HostRuntime) {
    for row in SOLVED {
        let is_so = is_solved_so_in_both(rt.alloc(), *row);
        assert!(rt; is_so.unwrap_or(false), "{}", row.0);
    }
}

#[test]
fn an_and_that_was_denied_is_split(rt: HostRuntime) -> Result<(), Fail> {
    assert!(rt; is_solved_so(rt.alloc(), (EITHER_AND, ONE), Version::Two, SIGNED)?);
    Ok(())
}

/// Cuts of `Split(1), Path, Path` that are no good, so that all three steps have to stay.
const WRONG_CUTS: &[&[Cut]] = &[
    // a branch stays open, or the branch that is left is not closed by the leaf that is
    &[Cut { start: 2, end: 3 }],
    &[Cut { start: 1, end: 2 }],
    &[Cut { start: 0, end: 2 }],
    // they end or begin past the last step, or end before they begin
    &[Cut { start: 1, end: 9 }],
    &[Cut { start: 8, end: 9 }],
    &[Cut { start: 2, end: 1 }],
    // they overlap
    &[Cut { start: 0, end: 2 }, Cut { start: 1, end: 3 }],
];

/// Whether all steps stay where these were noted as not needed.
fn all_stay(alloc: Global, cuts: &[Cut]) -> Result<bool, Memory> {
    let Ok(front) = front(alloc, EITHER_ORDER.as_bytes(), TWO_FORBIDDEN.as_bytes()) else {
        return Ok(false);
    };
    match search_front(alloc, &front, Version::One)? {
        Answer::Unobservable(mut steps) => {
            steps.note_cuts(cuts.to_vec(alloc)?);
            let stay = shorten(alloc, &front.tree, Version::One, steps)?;
            Ok(have_shapes(&stay, &[Split(1), Path, Path]))
        }
        Answer::Observable(_) => Ok(false),
    }
}

#[test]
fn wrong_cuts_cut_nothing(rt: HostRuntime) -> Result<(), Fail> {
    for cuts in WRONG_CUTS {
        assert!(rt; all_stay(rt.alloc(), cuts)?);
    }
    Ok(())
}

fn is_split(step: &Step) -> bool {
    matches!(step, Step::Split { .. })
}

/// How many splits the steps have.
fn splits(steps: &Refutation) -> usize {
    let mut count = 0usize;
    for k in 0..steps.len() {
        if is_split(steps.step(k)) {
            count = count.saturating_add(1);
        }
    }
    count
}

/// How many splits the search makes that refutes the front; none where it finds a world.
fn splits_of(alloc: Global, front: &Front, version: Version) -> Result<Option<usize>, Memory> {
    match search_front(alloc, front, version)? {
        Answer::Unobservable(steps) => Ok(Some(splits(&steps))),
        Answer::Observable(_) => Ok(None),
    }
}

/// Whether the search refutes the model and the test with so many splits.
fn is_refuted_by(
    alloc: Global,
    (model, test): (&str, &str),
    version: Version,
    count: usize,
) -> Result<bool, Memory> {
    if model.len() > 10_000 || test.len() > 10_000 {
        return Ok(false);
    }
    let Ok(front) = front(alloc, model.as_bytes(), test.as_bytes()) else {
        return Ok(false);
    };
    Ok(splits_of(alloc, &front, version)? == Some(count))
}

/// Eight free choices stand before four that cannot all be met. With each choice tried anew there are 1,535 splits: 255 of
/// the free ones, and 5 below each of their 256 branches.
#[test]
fn free_choices_before_a_core_are_not_all_tried(rt: HostRuntime) -> Result<(), Fail> {
    let texts = (CHOICES_AND_CORE, SEVEN_AND_A_FENCE);
    assert!(rt; is_refuted_by(rt.alloc(), texts, Version::One, 53)?);
    Ok(())
}
