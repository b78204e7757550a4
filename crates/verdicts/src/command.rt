ghost use Rattle.std.specs.Prelude.{IfOk};
ghost use Rattle.pc_ground.specs.NodeForm.{names_of};
ghost use Rattle.verdicts.specs.Verdicts.{IsWritable};
ghost use Rattle.verdicts.specs.CheckAnswers.{ReturnsVerdict};

use super::verdict::{FoundVerdict, short_verdict_on};
use command_base::{Ending, Inputs, SecondFile, read_inputs};
use pc_common::{Files, Memory};
use pc_ground::Version;
use std::alloc::Global;

/// Reads the two files and searches, with refutations of this version: the verdict on them, or how the command ends
/// before it.
pub fn check<S: SecondFile, F: Files>(
    alloc: Global,
    inputs: Inputs<'_>,
    version: Version,
    files: &mut F,
) -> Result<FoundVerdict, Ending>
    ensures outcome { ReturnsVerdict F.view S.case_of S.first_fault version inputs.entry files.old files.new result }
    ensures writable { IfOk result (λ v. IsWritable (names_of v.front) v.found) }
{
    let front = match read_inputs::<S, F>(alloc, inputs, files) {
        Ok(front) => front,
        Err(ending) => return Err(ending),
    };
    match short_verdict_on(alloc, front, version) {
        Ok(verdict) => Ok(verdict),
        Err(Memory) => Err(Ending::Memory),
    }
}
