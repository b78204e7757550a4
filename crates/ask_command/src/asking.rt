ghost use Rattle.std.specs.Prelude.{◌≡◌, map, IfOk};
ghost use Rattle.pc_syntax.specs.Closed.{plain_closed};
ghost use Rattle.pc_syntax.specs.StagesWithin.{StagesWithin};
ghost use Rattle.pc_ground.specs.Stages.{plain_stage, plain_axioms, numbers_of};
ghost use Rattle.ask_command.specs.Asking.{IsFoundMore, IsAsked};

use super::copies::{copy_parts, denial};
use super::fronts::front_more;
use super::outcome::Asked;
use pc_common::Memory;
use pc_ground::{Front, Parts};
use pc_syntax::Closed;
use search_trait::FrontSearch;
use solver::Answer;
use std::alloc::Global;

/// The front of these parts with one axiom more, and what the search finds of it.
fn found_more<S: FrontSearch>(
    alloc: Global,
    parts: &Parts,
    last: Closed,
) -> Result<(Front, Answer), Memory>
    requires { StagesWithin (numbers_of (map plain_stage parts.now.stages)) (plain_closed last.body) }
    ensures { IfOk result (IsFoundMore parts.now.case parts.now.stages (plain_axioms parts.now.axioms)
        (plain_closed last.body)) }
{
    let front = front_more::<S>(alloc, parts, last)?;
    let found = S::found_of(alloc, &front)?;
    Ok((front, found))
}

/// What the search finds of the parts of a model and a test with a formula more, and with its denial. The formula names
/// no stages but those of the parts.
///
/// Makes two ground trees and two searches, and copies the parts for each. The one error is that memory was refused;
/// the parts and the formula stay as they are.
pub fn ask_parts<S: FrontSearch>(
    alloc: Global,
    parts: &Parts,
    formula: &Closed,
) -> Result<Asked, Memory>
    requires { StagesWithin (numbers_of (map plain_stage parts.now.stages)) (plain_closed formula.now.body) }
    ensures { IfOk result (IsAsked parts.now.case parts.now.stages (plain_axioms parts.now.axioms)
        (plain_closed formula.now.body)) }
{
    let added = found_more::<S>(alloc, parts, formula.copy(alloc)?)?;
    let against = found_more::<S>(alloc, parts, denial(alloc, formula)?)?;
    Ok(Asked { added, against })
}

/// What the search finds of a front with a formula as its last axiom, and with the formula's denial. The formula names
/// no stages but those of the front.
///
/// Makes two ground trees and two searches. The one error is that memory was refused; the front and the formula stay as
/// they are.
pub fn ask<S: FrontSearch>(alloc: Global, front: &Front, formula: &Closed) -> Result<Asked, Memory>
    requires { StagesWithin (numbers_of (map plain_stage front.now.stages)) (plain_closed formula.now.body) }
    ensures { IfOk result (IsAsked front.now.case front.now.stages (plain_axioms front.now.axioms)
        (plain_closed formula.now.body)) }
{
    let parts = copy_parts(alloc, front)?;
    ask_parts::<S>(alloc, &parts, formula)
}
