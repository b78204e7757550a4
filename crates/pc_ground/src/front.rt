ghost use Rattle.std.specs.Prelude.{◌≡◌, map};
ghost use Rattle.std.specs.Coded.{Coded-set};
ghost use Rattle.pc_ground.specs.contracts.flat.Flat as flat_row;
ghost use Rattle.pc_ground.specs.contracts.numbering.Numbering as numbering_row;
ghost use Rattle.pc_ground.specs.Keys.{key_node};
ghost use Rattle.pc_ground.specs.Rows.{rows_of};
ghost use Rattle.pc_ground.specs.GroundTree.{closed_ground_tree};
ghost use Rattle.pc_ground.specs.Numbers.{numbered};
ghost use Rattle.pc_ground.specs.Stages.{plain_stage, plain_axioms, numbers_of, AreStages, AxiomsWithin};
ghost use Rattle.pc_ground.specs.LawsOfStages.{AreStages-prop, AxiomsWithin-prop};

use super::flat::Flat;
use super::numbering::Numbering;
use super::stage::{Axioms, Stages};
use pc_case::Case;

/// What both files say: a test, a model's stages and closed axioms in the text's order, the ground tree of
/// these axioms in this test, and the numbers of its nodes.
///
/// The type keeps that stage numbers are below 64 and stage names are names, that no two stages have one
/// number or one name, that the axioms name no other stages, that the tree is that of the axioms, and that
/// the numbering is that of the tree.
pub struct Front {
    pub case: Case,
    pub stages: Stages,
    pub axioms: Axioms,
    pub tree: Flat,
    pub numbering: Numbering,
    pub ghost named: { AreStages (map plain_stage stages) } by { AreStages-prop (map plain_stage stages) },
    pub ghost within: { AxiomsWithin (numbers_of (map plain_stage stages))
        (plain_axioms axioms) } by { AxiomsWithin-prop (numbers_of (map plain_stage stages)) (plain_axioms axioms) },
    pub ghost grounded: { tree ≡ rows_of (closed_ground_tree case
        (plain_axioms axioms)) } by { Coded-set flat_row.the_row.coded tree
            (rows_of (closed_ground_tree case (plain_axioms axioms))) },
    pub ghost counted: { numbering ≡ numbered (closed_ground_tree case
        (plain_axioms axioms)) } by { Coded-set numbering_row.the_row.coded numbering
            (numbered (closed_ground_tree case (plain_axioms axioms))) },
}

// By hand: docs/DECISIONS.md, "Drops are written by hand".
impl Drop for Front {
    fn drop(self) {
        let Front {
            case: _,
            stages: _,
            axioms: _,
            tree: _,
            numbering: _,
        } = self;
    }
}
