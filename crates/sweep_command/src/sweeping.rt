ghost use Rattle.std.specs.Prelude.{◌<◌, IfOk};
ghost use Rattle.pc_ground.specs.Stages.{plain_axioms};
ghost use Rattle.pattern_reader.specs.Rows.{rows_of, row_case as case_of_row};
ghost use Rattle.sweep_command.specs.Sweeps.{IsAnswerTo, AreAnswers};

use super::row::is_observable;
use pattern_reader::{Pattern, row_case};
use pc_common::Memory;
use pc_syntax::Closed;
use std::alloc::Global;

/// Whether the outcome of a row's case is observable on these axioms.
fn row_answer(alloc: Global, axioms: &[Closed], pattern: &Pattern, row: u32) -> Result<bool, Memory>
    requires { row < rows_of pattern.now }
    ensures { IfOk result (IsAnswerTo (plain_axioms axioms.now) (case_of_row pattern.now row)) }
{
    let case = row_case(alloc, pattern, row)?;
    is_observable(alloc, axioms, &case)
}

/// For each row of the pattern, whether the outcome of its case is observable on these axioms.
///
/// Takes one byte for each row beside the memory of one. The one error is that memory was refused.
pub fn sweep(alloc: Global, axioms: &[Closed], pattern: &Pattern) -> Result<Vec<bool>, Memory>
    ensures { IfOk result (λ answers. AreAnswers (plain_axioms axioms.now) pattern.now answers.items) }
{
    let rows = pattern.rows();
    let mut answers = Vec::with_capacity(alloc, rows as usize)?;
    for row in 0..rows {
        answers.push(row_answer(alloc, axioms, pattern, row)?)?;
    }
    Ok(answers)
}
