ghost use Rattle.std.specs.Prelude.{◌≡◌, ◌++◌, ◌∷◌, [], map, IfOk};
ghost use Rattle.pc_syntax.specs.Closed.{plain_closed};
ghost use Rattle.pc_syntax.specs.StagesWithin.{StagesWithin};
ghost use Rattle.pc_ground.specs.Stages.{plain_stage, plain_axioms, numbers_of};
ghost use Rattle.ask_command.specs.Asking.{IsFrontMore};

use super::copies::copy_axioms;
use pc_common::Memory;
use pc_ground::{Front, Parts, copy_stages};
use pc_syntax::Closed;
use search_trait::FrontSearch;
use std::alloc::Global;

/// The parts once more, in memory of their own, with one axiom more after the others.
fn parts_more(alloc: Global, parts: &Parts, last: Closed) -> Result<Parts, Memory>
    requires { StagesWithin (numbers_of (map plain_stage parts.now.stages)) (plain_closed last.body) }
    ensures case { IfOk result (λ p. p.case ≡ parts.now.case) }
    ensures stages { IfOk result (λ p. p.stages ≡ parts.now.stages) }
    ensures axioms { IfOk result (λ p.
        plain_axioms p.axioms ≡ plain_axioms parts.now.axioms ++ plain_closed last.body ∷ []) }
{
    let mut axioms = copy_axioms(alloc, &parts.axioms)?;
    axioms.push(last)?;
    let stages = copy_stages(alloc, &parts.stages)?;
    let case = parts.case.copy(alloc)?;
    Ok(Parts {
        case,
        stages,
        axioms,
    })
}

/// The front of these parts with one axiom more after the others.
pub(crate) fn front_more<S: FrontSearch>(
    alloc: Global,
    parts: &Parts,
    last: Closed,
) -> Result<Front, Memory>
    requires { StagesWithin (numbers_of (map plain_stage parts.now.stages)) (plain_closed last.body) }
    ensures { IfOk result (IsFrontMore parts.now.case parts.now.stages (plain_axioms parts.now.axioms)
        (plain_closed last.body)) }
{
    let more = parts_more(alloc, parts, last)?;
    S::front_of(alloc, more)
}
