ghost use Rattle.std.specs.Prelude.{◌≡◌, IfOk};
ghost use Rattle.pc_ground.specs.Stages.{plain_axioms};
ghost use Rattle.pc_syntax.specs.Closed.{plain_closed, closed_not};

use pc_common::Memory;
use pc_ground::{Axioms, Front, Parts, copy_stages};
use pc_syntax::{Closed, ClosedFormula};
use std::alloc::Global;

/// Copies of the axioms, in order.
pub(crate) fn copy_axioms(alloc: Global, axioms: &Axioms) -> Result<Axioms, Memory>
    ensures { IfOk result (λ copies. plain_axioms copies ≡ plain_axioms axioms.now) }
{
    let mut copies = Axioms::new(alloc);
    for closed in axioms.as_slice() {
        copies.push(closed.copy(alloc)?)?;
    }
    Ok(copies)
}

/// Copies of the parts of a front.
pub(crate) fn copy_parts(alloc: Global, front: &Front) -> Result<Parts, Memory>
    ensures case { IfOk result (λ p. p.case ≡ front.now.case) }
    ensures stages { IfOk result (λ p. p.stages ≡ front.now.stages) }
    ensures axioms { IfOk result (λ p. plain_axioms p.axioms ≡ plain_axioms front.now.axioms) }
{
    let axioms = copy_axioms(alloc, &front.axioms)?;
    let stages = copy_stages(alloc, &front.stages)?;
    let case = front.case.copy(alloc)?;
    Ok(Parts {
        case,
        stages,
        axioms,
    })
}

/// The denial of a closed formula.
pub(crate) fn denial(alloc: Global, formula: &Closed) -> Result<Closed, Memory>
    ensures { IfOk result (λ c. plain_closed c.body ≡ closed_not (plain_closed formula.now.body)) }
{
    let body = ClosedFormula::negation(alloc, formula.body.copy(alloc)?)?;
    Ok(Closed { body })
}
