ghost use Rattle.std.specs.Prelude.{◌↔◌, length, IfOk};
ghost use Rattle.pc_ground.specs.Stages.{plain_axioms};
ghost use Rattle.axiom_core.specs.Choices.{IsTried};
ghost use Rattle.axiom_core.specs.Cores.{Allow, Forbid, IsCoreOf, HasNone};

use super::answer::Core;
use super::members::{all_shown, refuted_by};
use super::shrinking::{numbers_of, shrink};
use pc_common::Memory;
use pc_ground::Front;
use search_trait::FrontSearch;
use solver::Answer;
use std::alloc::Global;

/// The axioms that stayed, with their certificates.
fn core_of<S: FrontSearch>(alloc: Global, front: &Front, flags: &[bool]) -> Result<Core, Memory>
    requires { IsTried front.now.case (plain_axioms front.now.axioms) flags.now (length flags.now) }
    ensures { IfOk result (IsCoreOf front.now) }
{
    let kept = numbers_of(alloc, flags)?;
    let refuted = refuted_by::<S>(alloc, front, flags)?;
    let without = all_shown::<S>(alloc, front, flags, &kept)?;
    Ok(Core::Minimal {
        kept,
        refuted,
        without,
    })
}

/// A minimal set of the axioms of a front that forbids the outcome.
fn minimal_core<S: FrontSearch>(alloc: Global, front: &Front) -> Result<Core, Memory>
    requires { Forbid front.now.case (plain_axioms front.now.axioms) }
    ensures { IfOk result (IsCoreOf front.now) }
{
    let flags = shrink::<S>(alloc, front)?;
    core_of::<S>(alloc, front, &flags)
}

/// Which axioms of a front forbid the outcome: none exactly where it is observable, or else a minimal set, in which
/// each axiom in file order was taken out where the rest still forbade the outcome.
///
/// Makes one search for each axiom and one more, then one for the set and one for each of its members. The one error
/// is that memory was refused; the front stays as it is.
pub fn core<S: FrontSearch>(alloc: Global, front: &Front) -> Result<Core, Memory>
    ensures core { IfOk result (IsCoreOf front.now) }
    ensures none { IfOk result (λ found. HasNone found ↔ Allow front.now.case (plain_axioms front.now.axioms)) }
{
    match S::found_of(alloc, front)? {
        Answer::Observable(graph) => Ok(Core::None(graph)),
        Answer::Unobservable(_) => minimal_core::<S>(alloc, front),
    }
}
