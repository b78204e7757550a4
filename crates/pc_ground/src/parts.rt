ghost use Rattle.std.specs.Prelude.{map};
ghost use Rattle.pc_ground.specs.Stages.{plain_stage, plain_axioms, numbers_of, AreStages, AxiomsWithin};
ghost use Rattle.pc_ground.specs.LawsOfStages.{AreStages-prop, AxiomsWithin-prop};

use super::stage::{Axioms, Stages};
use pc_case::Case;

/// What a front is made of: a test, a model's stages, and closed axioms in the text's order.
///
/// The type keeps that stage numbers are below 64 and stage names are names, that no two stages have one
/// number or one name, and that the axioms name no other stages.
#[derive(Drop)]
pub struct Parts {
    pub case: Case,
    pub stages: Stages,
    pub axioms: Axioms,
    pub ghost named: { AreStages (map plain_stage stages) } by { AreStages-prop (map plain_stage stages) },
    pub ghost within: { AxiomsWithin (numbers_of (map plain_stage stages))
        (plain_axioms axioms) } by { AxiomsWithin-prop (numbers_of (map plain_stage stages)) (plain_axioms axioms) },
}
