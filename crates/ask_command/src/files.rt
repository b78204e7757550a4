ghost use Rattle.std.specs.Prelude.{◌≡◌, ◌≤◌, length, MatchResult};
ghost use Rattle.pc_front.specs.declared.limits.TheConstants.{MAX_FILE};
ghost use Rattle.command_base.specs.Inputs.{plain_inputs};
ghost use Rattle.ask_command.specs.Inquiries.{SaysInquiry};
ghost use Rattle.ask_command.specs.AskFiles.{bytes_of as bytes_in, IsBytesEnding, HasInquiry, IsFilesEnding};

use super::inquiry::Inquiry;
use super::three_files::read_inquiry;
use command_base::{Ending, Inputs, place_fault, two_files, unread_ending};
use pc_common::{Files, Which, read_all};
use pc_front::{FrontEnd, MAX_FILE};
use std::alloc::Global;

/// The bytes of one of the three files.
fn bytes_of<'a>(file: Which, model: &'a [u8], test: &'a [u8], query: &'a [u8]) -> &'a [u8]
    ensures { result.now ≡ bytes_in file model.now test.now query.now }
{
    match file {
        Which::Model => model,
        Which::Test => test,
        Which::Query => query,
    }
}

/// What the bytes of the three files say, or the refusal of their first fault, or want of memory.
fn inquiry_of(alloc: Global, model: &[u8], test: &[u8], query: &[u8]) -> Result<Inquiry, Ending>
    requires model_short { length model.now ≤ MAX_FILE }
    requires test_short { length test.now ≤ MAX_FILE }
    requires query_short { length query.now ≤ MAX_FILE }
    ensures { MatchResult result (SaysInquiry model.now test.now query.now)
        (IsBytesEnding model.now test.now query.now) }
{
    match read_inquiry(alloc, model, test, query) {
        Ok(asked) => Ok(asked),
        Err(FrontEnd::Refused(fault)) => {
            Err(Ending::Refused(place_fault(fault, bytes_of(fault.file, model, test, query))))
        }
        Err(FrontEnd::Memory) => Err(Ending::Memory),
    }
}

/// Reads the model, the test and the query, at most 1,048,576 bytes each: what they say together, or how the command
/// ends, which is a failed call, refused memory, or the first fault.
pub(crate) fn read_three<F: Files>(
    alloc: Global,
    inputs: Inputs<'_>,
    query: &str,
    files: &mut F,
) -> Result<Inquiry, Ending>
    ensures { MatchResult result
        (HasInquiry F.view (plain_inputs inputs.entry) query.now files.old files.new)
        (IsFilesEnding F.view (plain_inputs inputs.entry) query.now files.old files.new) }
{
    let (model, test) = match two_files(alloc, inputs, files) {
        Ok(both) => both,
        Err(ending) => return Err(ending),
    };
    let third = match read_all(alloc, files, query, MAX_FILE) {
        Ok(bytes) => bytes,
        Err(end) => return Err(unread_ending(Which::Query, end)),
    };
    inquiry_of(alloc, &model, &test, &third)
}
