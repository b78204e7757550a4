ghost use Rattle.std.specs.Prelude.{◌≡◌, ◌<◌, ◌++◌, [], ◌∷◌, length, IfOk, OnOk, if◌then◌else◌};
ghost use Rattle.pc_syntax.specs.Closed.{plain_closed};
ghost use Rattle.pc_ground.specs.Stages.{plain_axioms};
ghost use Rattle.axiom_core.specs.Chosen.{taken};
ghost use Rattle.axiom_core.specs.Choices.{choice};
ghost use Rattle.axiom_core.specs.Cores.{IsFrontWith};

use pc_common::Memory;
use pc_ground::{Axioms, Front};
use pc_syntax::Closed;
use search_trait::FrontSearch;
use std::alloc::Global;

/// Whether the axiom at `k` is chosen: its flag is set, and it is not the one that is left out.
fn is_chosen(flags: &[bool], left_out: Option<usize>, k: usize) -> bool
    requires { k < length flags.now }
    ensures { result ≡ choice flags.now left_out k }
{
    match left_out {
        None => flags[k],
        Some(at) => flags[k] && k != at,
    }
}

/// Puts a copy of the axiom after the copies, where it is chosen.
fn copy_chosen(
    alloc: Global,
    chosen: bool,
    closed: &Closed,
    copies: &mut Axioms,
) -> Result<(), Memory>
    ensures { OnOk result (plain_axioms copies.new
        ≡ plain_axioms copies.old ++ (if chosen then plain_closed closed.now.body ∷ [] else [])) }
{
    if chosen {
        copies.push(closed.copy(alloc)?)?;
    }
    Ok(())
}

/// Copies of the chosen axioms, in order.
fn chosen_axioms(
    alloc: Global,
    axioms: &Axioms,
    flags: &[bool],
    left_out: Option<usize>,
) -> Result<Axioms, Memory>
    requires { length flags.now ≡ length axioms.now }
    ensures { IfOk result (λ copies.
        plain_axioms copies ≡ taken (choice flags.now left_out) (plain_axioms axioms.now)) }
{
    let mut copies = Axioms::new(alloc);
    for (k, closed) in axioms.as_slice().iter().enumerate() {
        copy_chosen(alloc, is_chosen(flags, left_out, k), closed, &mut copies)?;
    }
    Ok(copies)
}

/// The front of the chosen axioms, in the same case and over the same stages.
pub(crate) fn part_of<S: FrontSearch>(
    alloc: Global,
    front: &Front,
    flags: &[bool],
    left_out: Option<usize>,
) -> Result<Front, Memory>
    requires { length flags.now ≡ length front.now.axioms }
    ensures { IfOk result (IsFrontWith front.now (choice flags.now left_out)) }
{
    let axioms = chosen_axioms(alloc, &front.axioms, flags, left_out)?;
    let case = front.case.copy(alloc)?;
    S::front_with(alloc, front, case, axioms)
}
