ghost use Rattle.std.specs.Prelude.{◌≡◌, ◌<◌, ◌++◌, ◌∷◌, [], length, IfOk, OnOk, All, IsTrue};
ghost use Rattle.pc_ground.specs.Stages.{plain_axioms};
ghost use Rattle.axiom_core.specs.Chosen.{taken, less, flagged};
ghost use Rattle.axiom_core.specs.Choices.{IsTried};
ghost use Rattle.axiom_core.specs.Cores.{Allow, Forbid, IsRefutedWith, IsShownWith, AreShownWithout};
ghost use Rattle.pc_ground.specs.declared.front.Front.{Front as AnyFront};
ghost use Rattle.graph_text.specs.declared.graph.Graph.{Graph as AnyGraph};

use super::answer::{AxiomNumbers, Shown};
use super::chosen::part_of;
use pc_common::Memory;
use pc_ground::Front;
use refutation::Refutation;
use search_trait::FrontSearch;
use solver::Answer;
use std::alloc::Global;

/// The front of the axioms whose flags are set, and the refutation that the search finds of it.
pub(crate) fn refuted_by<S: FrontSearch>(
    alloc: Global,
    front: &Front,
    flags: &[bool],
) -> Result<(Front, Refutation), Memory>
    requires size { length flags.now ≡ length front.now.axioms }
    requires forbidden { Forbid front.now.case (taken (flagged flags.now) (plain_axioms front.now.axioms)) }
    ensures { IfOk result (IsRefutedWith front.now (flagged flags.now)) }
{
    let kept = part_of::<S>(alloc, front, flags, None)?;
    match S::found_of(alloc, &kept)? {
        Answer::Unobservable(steps) => Ok((kept, steps)),
        Answer::Observable(_) => unreachable!(),
    }
}

/// Puts the front of the axioms whose flags are set but for the one at `at`, with the graph that the search finds of it,
/// after the others.
fn add_shown<S: FrontSearch>(
    alloc: Global,
    front: &Front,
    flags: &[bool],
    at: usize,
    shown: &mut Shown,
) -> Result<(), Memory>
    requires size { length flags.now ≡ length front.now.axioms }
    requires allowed { Allow front.now.case (taken (less at (flagged flags.now)) (plain_axioms front.now.axioms)) }
    ensures { OnOk result ((s : AnyFront × AnyGraph) × IsShownWith front.now (less at (flagged flags.now)) s
        × (shown.new ≡ shown.old ++ s ∷ [])) }
{
    let part = part_of::<S>(alloc, front, flags, Some(at))?;
    match S::found_of(alloc, &part)? {
        Answer::Observable(graph) => shown.push((part, graph)),
        Answer::Unobservable(_) => unreachable!(),
    }
}

/// For each of these numbers, in order, what shows the outcome on the axioms whose flags are set, but for that one.
pub(crate) fn all_shown<S: FrontSearch>(
    alloc: Global,
    front: &Front,
    flags: &[bool],
    kept: &AxiomNumbers,
) -> Result<Shown, Memory>
    requires tried { IsTried front.now.case (plain_axioms front.now.axioms) flags.now (length flags.now) }
    requires flagged { All (λ k. k < length flags.now × IsTrue (flagged flags.now k)) kept.now }
    ensures { IfOk result (AreShownWithout front.now (flagged flags.now) kept.now) }
{
    let mut shown = Shown::new(alloc);
    for at in kept.as_slice() {
        add_shown::<S>(alloc, front, flags, *at, &mut shown)?;
    }
    Ok(shown)
}
