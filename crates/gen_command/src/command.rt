ghost use Rattle.std.specs.Prelude.{◌≤◌};
ghost use Rattle.litmus_reader.specs.Answer.{CaseOf};
ghost use Rattle.pc_front.specs.Front.{IsFirstFrontFault as IsTestFault};
ghost use Rattle.gen_command.specs.Ring.{ring_model, ring_test};
ghost use Rattle.command_base.specs.Endings.{ReturnsFront};
ghost use Rattle.gen_command.specs.GenAnswers.{ReturnsReport};

use super::pair::gen_texts;
use super::report::{Report, report_of};
use command_base::{Ending, TestFile, front_of};
use pc_common::Memory;
use pc_ground::{Front, Version};
use std::alloc::Global;
use verdicts::verdict_on;

/// The front of the two texts of the ring of `n` cores, or how the command ends where they say none.
fn ring_front(alloc: Global, n: u8) -> Result<Front, Ending>
    requires { 2 ≤ n × n ≤ 16 }
    ensures { ReturnsFront CaseOf IsTestFault ring_model (ring_test n) result }
{
    match gen_texts(alloc, n) {
        Ok((model, test)) => front_of::<TestFile>(alloc, &model, &test),
        Err(Memory) => Err(Ending::Memory),
    }
}

/// Makes the two texts of the ring of `n` cores and searches: the report on them, or how the command ends before it,
/// which is the first fault of the texts, or want of memory. Touches no file.
pub fn generate(alloc: Global, n: u8) -> Result<Report, Ending>
    requires { 2 ≤ n × n ≤ 16 }
    ensures { ReturnsReport n result }
{
    let front = match ring_front(alloc, n) {
        Ok(front) => front,
        Err(ending) => return Err(ending),
    };
    match verdict_on(alloc, front, Version::One) {
        Ok(verdict) => {
            let report = report_of(n, &verdict);
            drop(verdict);
            Ok(report)
        }
        Err(Memory) => Err(Ending::Memory),
    }
}
