ghost use Rattle.std.specs.Prelude.{◌≡◌, ◌^◌, ◌<◌, length, map, IfOk, IfErr};
ghost use Rattle.pc_ground.specs.Stages.{plain_stage, plain_axioms, numbers_of, AreStages, AxiomsWithin};
ghost use Rattle.pc_front.specs.Front.{SayParts, SayFront, IsEnd};

use super::model_front::{FrontEnd, ModelFront};
use super::reading::read_model;
use grounder::front_of;
use litmus_reader::read_case;
use pc_case::Case;
use pc_ground::{Front, Parts};
use std::alloc::Global;

/// What the bytes of a model and of a test say, without a ground tree: the test's case, the model's stages,
/// and its axioms, closed.
///
/// `Refused` comes with the first fault of the two files: the model's, and where it has none, the test's.
/// The sizes of the files aren't judged.
pub fn read_parts(alloc: Global, model_bytes: &[u8], test_bytes: &[u8]) -> Result<Parts, FrontEnd>
    requires model_short { length model_bytes.now < 2 ^ 32 }
    requires test_short { length test_bytes.now < 2 ^ 32 }
    ensures ok { IfOk result (SayParts model_bytes.now test_bytes.now) }
    ensures err { IfErr result (IsEnd model_bytes.now test_bytes.now) }
{
    let model = read_model(alloc, model_bytes)?;
    let case = read_case(alloc, test_bytes)?;
    Ok(parts_of(case, model))
}

/// The parts of a case and a model. Takes no memory.
pub fn parts_of(case: Case, model: ModelFront) -> Parts
    requires named { AreStages (map plain_stage model.stages) }
    requires within { AxiomsWithin (numbers_of (map plain_stage model.stages)) (plain_axioms model.axioms) }
    ensures { (result.case ≡ case) × (result.stages ≡ model.stages) × (result.axioms ≡ model.axioms) }
{
    let ModelFront { stages, axioms } = model;
    Parts {
        case,
        stages,
        axioms,
    }
}

/// What the bytes of a model and of a test say together: the test's case, the model's stages, its axioms
/// closed, their ground tree in the case, and the numbers of the tree's nodes.
///
/// `Refused` comes with the first fault of the two files: the model's, and where it has none, the test's.
/// The sizes of the files aren't judged.
pub fn front(alloc: Global, model_bytes: &[u8], test_bytes: &[u8]) -> Result<Front, FrontEnd>
    requires model_short { length model_bytes.now < 2 ^ 32 }
    requires test_short { length test_bytes.now < 2 ^ 32 }
    ensures ok { IfOk result (SayFront model_bytes.now test_bytes.now) }
    ensures err { IfErr result (IsEnd model_bytes.now test_bytes.now) }
{
    let parts = read_parts(alloc, model_bytes, test_bytes)?;
    Ok(front_of(alloc, parts)?)
}
