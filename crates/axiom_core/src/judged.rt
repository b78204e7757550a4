ghost use Rattle.std.specs.Prelude.{◌≡◌, length, IfOk};
ghost use Rattle.std.specs.Bool.{MatchBool};
ghost use Rattle.pc_ground.specs.Stages.{plain_axioms};
ghost use Rattle.axiom_core.specs.Chosen.{taken};
ghost use Rattle.axiom_core.specs.Cores.{Allow, Forbid};
ghost use Rattle.axiom_core.specs.Choices.{choice, is_refutation};

use super::chosen::part_of;
use pc_common::Memory;
use pc_ground::Front;
use search_trait::FrontSearch;
use solver::Answer;
use std::alloc::Global;

/// Whether a front is refuted.
fn is_refuted(found: &Answer) -> bool
    ensures { result ≡ is_refutation found.now }
{
    match found {
        Answer::Observable(_) => false,
        Answer::Unobservable(_) => true,
    }
}

/// Whether the chosen axioms forbid the outcome: what is found of them is dropped.
pub(crate) fn are_refuted<S: FrontSearch>(
    alloc: Global,
    front: &Front,
    flags: &[bool],
    left_out: Option<usize>,
) -> Result<bool, Memory>
    requires { length flags.now ≡ length front.now.axioms }
    ensures { let ps = taken (choice flags.now left_out) (plain_axioms front.now.axioms) in
        IfOk result (λ b. MatchBool b (Forbid front.now.case ps) (Allow front.now.case ps)) }
{
    let part = part_of::<S>(alloc, front, flags, left_out)?;
    let found = S::found_of(alloc, &part)?;
    Ok(is_refuted(&found))
}
