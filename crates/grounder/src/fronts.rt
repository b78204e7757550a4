ghost use Rattle.std.specs.Prelude.{◌≡◌, map, IfOk};
ghost use Rattle.pc_ground.specs.Stages.{plain_stage, plain_axioms, numbers_of, AxiomsWithin};

use super::grounded::grounded;
use pc_case::Case;
use pc_common::Memory;
use pc_ground::{Axioms, Front, Parts, copy_stages};
use std::alloc::Global;

/// The front of these parts, which it takes over: their ground tree and its numbers come to them.
///
/// Takes time and memory as grounding does. The one error is that memory was refused; then the parts are
/// gone.
pub fn front_of(alloc: Global, parts: Parts) -> Result<Front, Memory>
    ensures case { IfOk result (λ f. f.case ≡ parts.case) }
    ensures stages { IfOk result (λ f. f.stages ≡ parts.stages) }
    ensures axioms { IfOk result (λ f. f.axioms ≡ parts.axioms) }
{
    let (tree, numbering) = grounded(alloc, &parts.case, &parts.axioms)?;
    let Parts {
        case,
        stages,
        axioms,
    } = parts;
    Ok(Front {
        case,
        stages,
        axioms,
        tree,
        numbering,
    })
}

/// The front of another case and other axioms over the stages of a front, which are copied. The axioms
/// name no other stages.
///
/// Takes time and memory as grounding does, and one entry for each stage. The one error is that memory
/// was refused; the front that the stages are of stays as it is.
pub fn front_with(alloc: Global, front: &Front, case: Case, axioms: Axioms) -> Result<Front, Memory>
    requires within { AxiomsWithin (numbers_of (map plain_stage front.now.stages)) (plain_axioms axioms) }
    ensures case { IfOk result (λ f. f.case ≡ case) }
    ensures stages { IfOk result (λ f. f.stages ≡ front.now.stages) }
    ensures axioms { IfOk result (λ f. f.axioms ≡ axioms) }
{
    let stages = copy_stages(alloc, &front.stages)?;
    front_of(
        alloc,
        Parts {
            case,
            stages,
            axioms,
        },
    )
}
