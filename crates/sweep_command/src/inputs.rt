ghost use Rattle.std.specs.Prelude.{◌≡◌, ◌≤◌, ◌<◌, length, IfOk, IfErr, MatchResult};
ghost use Rattle.pc_front.specs.declared.limits.TheConstants.{MAX_FILE};
ghost use Rattle.command_base.specs.Inputs.{plain_inputs};
ghost use Rattle.command_base.specs.SecondFiles.{IsFrontEnd};
ghost use Rattle.command_base.specs.Endings.{IsBytesEnding};
ghost use Rattle.command_base.specs.Outcomes.{IsInputsEnding};
ghost use Rattle.sweep_command.specs.Patterns.{ClosedCase, IsFirstSweepFault, SaysTask, HasTask};

use command_base::{Ending, Inputs, bytes_of, place_fault, two_files};
use pattern_reader::{Pattern, read_pattern};
use pc_common::Files;
use pc_front::{FrontEnd, MAX_FILE, ModelFront, read_model};
use std::alloc::Global;

/// A model without a fault, and a pattern.
#[derive(Drop)]
pub(crate) struct Task {
    pub(crate) model: ModelFront,
    pub(crate) pattern: Pattern,
}

/// What the bytes of a model and of a pattern say.
fn make_task(alloc: Global, model: &[u8], second: &[u8]) -> Result<Task, FrontEnd>
    requires model_short { length model.now ≤ MAX_FILE }
    requires second_short { length second.now ≤ MAX_FILE }
    ensures ok { IfOk result (SaysTask model.now second.now) }
    ensures err { IfErr result (IsFrontEnd ClosedCase IsFirstSweepFault model.now second.now) }
{
    let model = read_model(alloc, model)?;
    let pattern = read_pattern(alloc, second)?;
    Ok(Task { model, pattern })
}

/// What the bytes of the two files say, or the refusal of their first fault, or want of memory.
fn task_of(alloc: Global, model: &[u8], second: &[u8]) -> Result<Task, Ending>
    requires model_short { length model.now ≤ MAX_FILE }
    requires second_short { length second.now ≤ MAX_FILE }
    ensures { MatchResult result (SaysTask model.now second.now)
        (IsBytesEnding ClosedCase IsFirstSweepFault model.now second.now) }
{
    match make_task(alloc, model, second) {
        Ok(task) => Ok(task),
        Err(FrontEnd::Refused(fault)) => {
            Err(Ending::Refused(place_fault(fault, bytes_of(fault.file, model, second))))
        }
        Err(FrontEnd::Memory) => Err(Ending::Memory),
    }
}

/// Reads the model, then the pattern, at most 1,048,576 bytes each: what they say, or how the command ends, which is
/// a failed call, refused memory, or the first fault.
pub(crate) fn read_task<F: Files>(
    alloc: Global,
    inputs: Inputs<'_>,
    files: &mut F,
) -> Result<Task, Ending>
    ensures { MatchResult result
        (HasTask F.view (plain_inputs inputs.entry) files.old files.new)
        (IsInputsEnding F.view ClosedCase IsFirstSweepFault (plain_inputs inputs.entry) files.old files.new) }
{
    match two_files(alloc, inputs, files) {
        Ok((model, second)) => task_of(alloc, &model, &second),
        Err(ending) => Err(ending),
    }
}
