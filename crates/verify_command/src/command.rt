ghost use Rattle.std.specs.Prelude.{◌≡◌};
ghost use Rattle.verify_command.specs.VerifyAnswers.{ReturnsChecked};

use super::checking::check_file;
use cert_check::Checked;
use command_base::{Ending, Inputs, SecondFile, read_parts};
use pc_common::Files;
use std::alloc::Global;

/// Reads the two files, and where they have no fault the third: what it is to them, or how the command ends before.
/// The ground tree is built where the third file's first line is `unobservable`, and else never.
pub fn verify<S: SecondFile, F: Files>(
    alloc: Global,
    inputs: Inputs<'_>,
    certificate: &str,
    files: &mut F,
) -> Result<Checked, Ending>
    ensures { ReturnsChecked F.view S.case_of S.first_fault inputs.entry certificate.now files.old files.new result }
{
    let parts = match read_parts::<S, F>(alloc, inputs, files) {
        Ok(parts) => parts,
        Err(ending) => return Err(ending),
    };
    Ok(check_file(alloc, parts, certificate, files)?)
}
