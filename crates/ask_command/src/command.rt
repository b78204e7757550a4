ghost use Rattle.std.specs.Prelude.{◌≡◌, IfOk};
ghost use Rattle.ask_command.specs.AskAnswers.{ReturnsAsk};
ghost use Rattle.ask_command.specs.FoundAsks.{verdict_of as verdict_in, verdicts_of as verdicts_in};
ghost use Rattle.ask_command.specs.FoundAsks.{IsAskWritable};

use super::asking::ask_parts;
use super::files::read_three;
use super::outcome::Asked;
use command_base::{Ending, Inputs};
use pc_common::{Files, Memory};
use pc_ground::{Front, Version};
use search_trait::FrontSearch;
use solver::Answer;
use std::alloc::Global;
use verdicts::FoundVerdict;

/// What `ask` finds: the verdict with the formula as the model's last axiom, and that with the formula's denial.
pub struct FoundAsk {
    pub added: FoundVerdict,
    pub against: FoundVerdict,
}

// By hand: docs/DECISIONS.md, "Drops are written by hand".
impl Drop for FoundAsk {
    fn drop(self) {
        let FoundAsk {
            added: _,
            against: _,
        } = self;
    }
}

/// What is found of a front, as a verdict.
fn verdict_of(found: (Front, Answer)) -> FoundVerdict
    ensures { result ≡ verdict_in found }
{
    let (front, found) = found;
    FoundVerdict {
        front,
        version: Version::One,
        found,
    }
}

/// The two verdicts.
fn verdicts_of(asked: Asked) -> FoundAsk
    ensures { result ≡ verdicts_in asked }
{
    let Asked { added, against } = asked;
    FoundAsk {
        added: verdict_of(added),
        against: verdict_of(against),
    }
}

/// Reads the three files and searches: in which worlds the query's formula holds, or how the command ends before it.
pub fn ask_files<S: FrontSearch, F: Files>(
    alloc: Global,
    inputs: Inputs<'_>,
    query: &str,
    files: &mut F,
) -> Result<FoundAsk, Ending>
    ensures outcome { ReturnsAsk F.view inputs.entry query.now files.old files.new result }
    ensures writable { IfOk result IsAskWritable }
{
    let inquiry = match read_three(alloc, inputs, query, files) {
        Ok(inquiry) => inquiry,
        Err(ending) => return Err(ending),
    };
    match ask_parts::<S>(alloc, &inquiry.parts, &inquiry.formula) {
        Ok(asked) => Ok(verdicts_of(asked)),
        Err(Memory) => Err(Ending::Memory),
    }
}
