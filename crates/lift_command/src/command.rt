ghost use Rattle.std.specs.Prelude.{◌≡◌};
ghost use Rattle.lift_command.specs.LiftAnswers.{ReturnsLift};

use super::lifting::{FoundLift, lift_file};
use command_base::{Ending, Inputs, SecondFile, read_inputs};
use pc_common::Files;
use std::alloc::Global;

/// Reads the two files, and where they have no fault the third: what it is made into, or how the command ends before.
pub fn lift_files<S: SecondFile, F: Files>(
    alloc: Global,
    inputs: Inputs<'_>,
    certificate: &str,
    files: &mut F,
) -> Result<FoundLift, Ending>
    ensures { ReturnsLift F.view S.case_of S.first_fault inputs.entry certificate.now files.old files.new result }
{
    let front = match read_inputs::<S, F>(alloc, inputs, files) {
        Ok(front) => front,
        Err(ending) => return Err(ending),
    };
    let found = lift_file(alloc, &front, certificate, files);
    drop(front);
    Ok(found?)
}
