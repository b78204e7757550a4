ghost use Rattle.std.specs.Prelude.{◌≡◌, ◌≤◌, length, MatchResult};
ghost use Rattle.pc_front.specs.declared.limits.TheConstants.{MAX_FILE};
ghost use Rattle.pc_front.specs.Front.{fault_at};
ghost use Rattle.command_base.specs.Inputs.{plain_inputs, start};
ghost use Rattle.command_base.specs.Fronts.{front_of_parts};
ghost use Rattle.command_base.specs.SecondFiles.{SaysFront};
ghost use Rattle.command_base.specs.Endings.{bytes_of as bytes_in, IsUnread, IsBytesEnding, ReturnsFront};
ghost use Rattle.command_base.specs.Outcomes.{ReadsBytes, ReadsFront, ReadsParts};

use super::ending::Ending;
use super::refusal::place_fault;
use super::second_file::SecondFile;
use pc_common::{FaultKind, Files, InputFault, Place, ReadEnd, Which, read_all};
use pc_front::{FrontEnd, MAX_FILE};
use pc_ground::{Front, Parts};
use std::alloc::Global;

/// The two files of a command, by their names.
#[derive(Clone, Copy)]
pub struct Inputs<'a> {
    pub model: &'a str,
    /// The second file: a test, or what stands in its place.
    pub test: &'a str,
}

/// A fault at the first byte of a file.
fn fault_at_start(file: Which, kind: FaultKind) -> InputFault
    ensures { result ≡ fault_at file kind start }
{
    InputFault {
        file,
        place: Place { offset: 0 },
        kind,
    }
}

/// The ending of a command that could not read a file whole.
pub fn unread_ending(file: Which, end: ReadEnd) -> Ending
    ensures { IsUnread file end result }
{
    match end {
        ReadEnd::ReadFault => Ending::ReadFault,
        ReadEnd::Memory => Ending::Memory,
        ReadEnd::TooLarge => {
            let limit = MAX_FILE as u64;
            Ending::Refused(place_fault(fault_at_start(file, FaultKind::TooLarge { limit }), b""))
        }
    }
}

/// The bytes of the file that a fault is told of, the model's or the second file's; none of a query.
pub fn bytes_of<'a>(file: Which, model: &'a [u8], second: &'a [u8]) -> &'a [u8]
    ensures { result.now ≡ bytes_in file model.now second.now }
{
    match file {
        Which::Model => model,
        Which::Test => second,
        Which::Query => b"",
    }
}

/// What the bytes of the two files say, or the refusal of their first fault, or want of memory.
pub fn front_of<S: SecondFile>(alloc: Global, model: &[u8], second: &[u8]) -> Result<Front, Ending>
    requires model_short { length model.now ≤ MAX_FILE }
    requires second_short { length second.now ≤ MAX_FILE }
    ensures { ReturnsFront S.case_of S.first_fault model.now second.now result }
{
    match S::front(alloc, model, second) {
        Ok(front) => Ok(front),
        Err(FrontEnd::Refused(fault)) => {
            Err(Ending::Refused(place_fault(fault, bytes_of(fault.file, model, second))))
        }
        Err(FrontEnd::Memory) => Err(Ending::Memory),
    }
}

/// What the bytes of the two files say, without a ground tree; or the refusal of their first fault, or want of memory.
fn parts_of<S: SecondFile>(alloc: Global, model: &[u8], second: &[u8]) -> Result<Parts, Ending>
    requires model_short { length model.now ≤ MAX_FILE }
    requires second_short { length second.now ≤ MAX_FILE }
    ensures { MatchResult result (λ parts. SaysFront S.case_of model.now second.now (front_of_parts parts))
        (IsBytesEnding S.case_of S.first_fault model.now second.now) }
{
    match S::parts(alloc, model, second) {
        Ok(parts) => Ok(parts),
        Err(FrontEnd::Refused(fault)) => {
            Err(Ending::Refused(place_fault(fault, bytes_of(fault.file, model, second))))
        }
        Err(FrontEnd::Memory) => Err(Ending::Memory),
    }
}

/// The bytes of the model, and then of the second file, at most 1,048,576 each; or how the command ends, which is a
/// failed call, refused memory, or a file that is too large.
pub fn two_files<F: Files>(
    alloc: Global,
    inputs: Inputs<'_>,
    files: &mut F,
) -> Result<(Vec<u8>, Vec<u8>), Ending>
    ensures { ReadsBytes F.view (plain_inputs inputs.entry) files.old files.new result }
{
    let model = match read_all(alloc, files, inputs.model, MAX_FILE) {
        Ok(bytes) => bytes,
        Err(end) => return Err(unread_ending(Which::Model, end)),
    };
    let second = match read_all(alloc, files, inputs.test, MAX_FILE) {
        Ok(bytes) => bytes,
        Err(end) => return Err(unread_ending(Which::Test, end)),
    };
    Ok((model, second))
}

/// Reads the model, then the second file, at most 1,048,576 bytes each: what they say together, or how the command
/// ends, which is a failed call, refused memory, or the first fault.
pub fn read_inputs<S: SecondFile, F: Files>(
    alloc: Global,
    inputs: Inputs<'_>,
    files: &mut F,
) -> Result<Front, Ending>
    ensures { ReadsFront F.view S.case_of S.first_fault (plain_inputs inputs.entry) files.old files.new result }
{
    match two_files(alloc, inputs, files) {
        Ok((model, second)) => front_of::<S>(alloc, &model, &second),
        Err(ending) => Err(ending),
    }
}

/// The same without a ground tree.
pub fn read_parts<S: SecondFile, F: Files>(
    alloc: Global,
    inputs: Inputs<'_>,
    files: &mut F,
) -> Result<Parts, Ending>
    ensures { ReadsParts F.view S.case_of S.first_fault (plain_inputs inputs.entry) files.old files.new result }
{
    match two_files(alloc, inputs, files) {
        Ok((model, second)) => parts_of::<S>(alloc, &model, &second),
        Err(ending) => Err(ending),
    }
}
