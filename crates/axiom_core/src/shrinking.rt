ghost use Rattle.std.specs.Prelude.{◌≡◌, ◌<◌, ◌+◌, ◌++◌, [], ◌∷◌, length, IfOk, OnOk, if◌then◌else◌};
ghost use Rattle.pc_ground.specs.Stages.{plain_axioms};
ghost use Rattle.axiom_core.specs.Chosen.{flagged};
ghost use Rattle.axiom_core.specs.Choices.{places, IsTried};
ghost use Rattle.axiom_core.specs.Cores.{Forbid};

use super::answer::AxiomNumbers;
use super::judged::are_refuted;
use pc_common::{Listed, Memory};
use pc_ground::Front;
use search_trait::FrontSearch;
use std::alloc::Global;

/// Takes the axiom at `at` out where the rest still forbids the outcome.
fn try_without<S: FrontSearch>(
    alloc: Global,
    front: &Front,
    flags: &mut [bool],
    at: usize,
) -> Result<(), Memory>
    requires tried { IsTried front.now.case (plain_axioms front.now.axioms) flags.old at }
    requires inside { at < length flags.old }
    ensures { OnOk result (IsTried front.now.case (plain_axioms front.now.axioms) flags.new (at + 1)) }
{
    if are_refuted::<S>(alloc, front, flags, Some(at))? {
        flags[at] = false;
    }
    Ok(())
}

/// Takes each axiom in file order out where the rest still forbids the outcome.
fn try_all<S: FrontSearch>(alloc: Global, front: &Front, flags: &mut [bool]) -> Result<(), Memory>
    requires { IsTried front.now.case (plain_axioms front.now.axioms) flags.old 0 }
    ensures { OnOk result (IsTried front.now.case (plain_axioms front.now.axioms) flags.new (length flags.new)) }
{
    for at in 0..flags.len() {
        try_without::<S>(alloc, front, flags, at)?;
    }
    Ok(())
}

/// Which axioms stay where each in file order is taken out if the rest still forbids the outcome.
pub(crate) fn shrink<S: FrontSearch>(alloc: Global, front: &Front) -> Result<Vec<bool>, Memory>
    requires { Forbid front.now.case (plain_axioms front.now.axioms) }
    ensures { IfOk result (λ flags.
        IsTried front.now.case (plain_axioms front.now.axioms) flags.items (length flags.items)) }
{
    let mut flags = vec![in alloc; true; front.axioms.len()]?;
    try_all::<S>(alloc, front, &mut flags)?;
    Ok(flags)
}

/// Puts the number last where its flag is set.
fn note(kept: &mut AxiomNumbers, flag: bool, number: usize) -> Result<(), Memory>
    ensures { OnOk result (kept.new ≡ kept.old ++ (if flag then number ∷ [] else [])) }
{
    if flag {
        kept.push(number)?;
    }
    Ok(())
}

/// The places of the flags that are set, in order.
pub(crate) fn numbers_of(alloc: Global, flags: &[bool]) -> Result<AxiomNumbers, Memory>
    ensures { IfOk result (λ kept. kept ≡ places (flagged flags.now) (length flags.now)) }
{
    let mut kept = Listed::new(alloc);
    for (k, flag) in flags.iter().enumerate() {
        note(&mut kept, *flag, k)?;
    }
    Ok(kept)
}
