ghost use Rattle.std.specs.Prelude.{◌≡◌, length, IfOk};
ghost use Rattle.pattern_reader.specs.Rows.{rows_of};
ghost use Rattle.sweep_command.specs.SweepAnswers.{ReturnsSweep};

use super::inputs::{Task, read_task};
use super::sweeping::sweep;
use command_base::{Ending, Inputs};
use pattern_reader::Pattern;
use pc_common::{Files, Memory};
use std::alloc::Global;

/// A pattern, and for each row whether its outcome is observable.
#[derive(Drop)]
pub struct Swept {
    pub pattern: Pattern,
    pub answers: Vec<bool>,
}

/// Reads the model and the pattern and returns the answer of each row, or how the command ends before it.
pub fn sweep_files<F: Files>(
    alloc: Global,
    inputs: Inputs<'_>,
    files: &mut F,
) -> Result<Swept, Ending>
    ensures outcome { ReturnsSweep F.view inputs.entry files.old files.new result }
    ensures rows { IfOk result (λ s. length s.answers.items ≡ rows_of s.pattern) }
{
    let Task { model, pattern } = match read_task(alloc, inputs, files) {
        Ok(task) => task,
        Err(ending) => return Err(ending),
    };
    match sweep(alloc, model.axioms.as_slice(), &pattern) {
        Ok(answers) => Ok(Swept { pattern, answers }),
        Err(Memory) => Err(Ending::Memory),
    }
}
