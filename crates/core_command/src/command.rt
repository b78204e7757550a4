ghost use Rattle.std.specs.Prelude.{IfOk};
ghost use Rattle.core_command.specs.CoreAnswers.{ReturnsCore};
ghost use Rattle.core_command.specs.Found.{IsCoreWritable};

use axiom_core::{Core, core};
use command_base::{Ending, Inputs, SecondFile, read_inputs};
use pc_common::{Files, Memory};
use pc_ground::Front;
use search_trait::FrontSearch;
use std::alloc::Global;

/// What `core` finds of a model and a test: their front, and which of its axioms forbid the outcome.
pub struct FoundCore {
    pub front: Front,
    pub core: Core,
}

// By hand: docs/DECISIONS.md, "Drops are written by hand".
impl Drop for FoundCore {
    fn drop(self) {
        let FoundCore { front: _, core: _ } = self;
    }
}

/// Reads the two files and searches: which axioms forbid the outcome, or how the command ends before it.
pub fn find_core<S: SecondFile, R: FrontSearch, F: Files>(
    alloc: Global,
    inputs: Inputs<'_>,
    files: &mut F,
) -> Result<FoundCore, Ending>
    ensures outcome { ReturnsCore F.view S.case_of S.first_fault inputs.entry files.old files.new result }
    ensures writable { IfOk result IsCoreWritable }
{
    let front = match read_inputs::<S, F>(alloc, inputs, files) {
        Ok(front) => front,
        Err(ending) => return Err(ending),
    };
    match core::<R>(alloc, &front) {
        Ok(core) => Ok(FoundCore { front, core }),
        Err(Memory) => Err(Ending::Memory),
    }
}
