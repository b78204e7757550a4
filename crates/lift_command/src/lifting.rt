ghost use Rattle.std.specs.Prelude.{◌≡◌, ℕ, List, Err, None, Some, IsTrue, IfOk};
ghost use Rattle.pc_common.specs.Faults.{Rose};
ghost use Rattle.pc_common.specs.Reads.{Reads};
ghost use Rattle.cert_check.specs.Questions.{question_of};
ghost use Rattle.lifted_check.specs.LiftedTexts.{asked};
ghost use Rattle.lift_command.specs.Lifts.{IsLiftOf};
ghost use Rattle.command_base.specs.declared.feed_end.FeedEnd.TheVariants.{ReadFault as a_read_fault};

use super::lifted_text::lift;
use cert_check::{One, check_one};
use command_base::FeedEnd;
use pc_common::{Files, MAX_CERTIFICATE, Memory, ReadEnd, read_all};
use pc_ground::Front;
use std::alloc::Global;

/// What `lift` makes of a certificate.
#[derive(Drop)]
pub enum FoundLift {
    /// It is a graph that holds, and there is nothing to lift.
    Observable,
    /// It is a refutation, and this is the text of the lifted one.
    Text(Vec<u8>),
    /// The first line that is refused, from 1; 0 where it is longer than 67,108,864 bytes.
    Refused(u64),
}

/// What the text of a certificate is made into.
fn lift_bytes(alloc: Global, front: &Front, bytes: &[u8]) -> Result<FoundLift, Memory>
    ensures { IfOk result (IsLiftOf (question_of front.now) (asked front.now.case front.now.axioms) bytes.now) }
{
    match check_one(alloc, front, bytes)? {
        One::Graph => Ok(FoundLift::Observable),
        One::Tree(refutation) => Ok(FoundLift::Text(lift(alloc, front, &refutation)?)),
        One::Refused(line) => Ok(FoundLift::Refused(line)),
    }
}

/// What the named file is made into. It is read to its end, or to one byte past the limit.
pub(crate) fn lift_file<F: Files>(
    alloc: Global,
    front: &Front,
    name: &str,
    files: &mut F,
) -> Result<FoundLift, FeedEnd>
    ensures keeps { Reads F.view files.old files.new }
    ensures found { IfOk result (λ found. IsTrue (F.view files.old).modelled →
        (bytes : List ℕ) × ((F.view files.old).holds name.now ≡ Some bytes)
        × IsLiftOf (question_of front.now) (asked front.now.case front.now.axioms) bytes found) }
    ensures cause { result ≡ Err a_read_fault → Rose (F.view files.old).faults (F.view files.new).faults }
    ensures missing { IsTrue (F.view files.old).only_missing_fail → result ≡ Err a_read_fault
        → (F.view files.old).holds name.now ≡ None }
{
    match read_all(alloc, files, name, MAX_CERTIFICATE) {
        Ok(bytes) => Ok(lift_bytes(alloc, front, &bytes)?),
        Err(ReadEnd::TooLarge) => Ok(FoundLift::Refused(0)),
        Err(ReadEnd::ReadFault) => Err(FeedEnd::ReadFault),
        Err(ReadEnd::Memory) => Err(FeedEnd::Memory),
    }
}
