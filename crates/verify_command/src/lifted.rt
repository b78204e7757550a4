ghost use Rattle.std.specs.Prelude.{◌≡◌, Err, None, Some, ℕ, List, IsTrue, IfOk};
ghost use Rattle.pc_common.specs.Faults.{Rose};
ghost use Rattle.pc_common.specs.Reads.{Reads};
ghost use Rattle.lifted_check.specs.LiftedTexts.{asked};
ghost use Rattle.lifted_check.specs.Fed.{IsFound};
ghost use Rattle.command_base.specs.declared.feed_end.FeedEnd.TheVariants.{ReadFault as a_read_fault};
ghost use Rattle.verify_command.specs.LiftedAnswers.{ReturnsLifted};

use super::reading::feed_named;
use command_base::{Ending, FeedEnd, Inputs, SecondFile, read_parts};
use lifted_check::{Lifted, LiftedChecker};
use pc_common::Files;
use pc_ground::Parts;
use std::alloc::Global;

/// What the named file is to the test and the closed axioms of these parts. It is read to its end, or to one byte past
/// the limit, before anything is answered.
fn check_lifted<F: Files>(
    alloc: Global,
    parts: &Parts,
    name: &str,
    files: &mut F,
) -> Result<Lifted, FeedEnd>
    ensures keeps { Reads F.view files.old files.new }
    ensures found { IfOk result (λ found. IsTrue (F.view files.old).modelled →
        (bytes : List ℕ) × ((F.view files.old).holds name.now ≡ Some bytes)
        × IsFound (asked parts.now.case parts.now.axioms) bytes found) }
    ensures cause { result ≡ Err a_read_fault → Rose (F.view files.old).faults (F.view files.new).faults }
    ensures missing { IsTrue (F.view files.old).only_missing_fail → result ≡ Err a_read_fault
        → (F.view files.old).holds name.now ≡ None }
{
    let checker = LiftedChecker::new(alloc, &parts.case, parts.axioms.as_slice());
    let checker = feed_named(files, name, checker)?;
    Ok(checker.finish())
}

/// Reads the two files, and where they have no fault the third: what it is to them, or how the command ends before.
pub fn verify_lifted<S: SecondFile, F: Files>(
    alloc: Global,
    inputs: Inputs<'_>,
    certificate: &str,
    files: &mut F,
) -> Result<Lifted, Ending>
    ensures { ReturnsLifted F.view S.case_of S.first_fault inputs.entry certificate.now files.old files.new result }
{
    let parts = match read_parts::<S, F>(alloc, inputs, files) {
        Ok(parts) => parts,
        Err(ending) => return Err(ending),
    };
    let checked = check_lifted(alloc, &parts, certificate, files);
    drop(parts);
    Ok(checked?)
}
