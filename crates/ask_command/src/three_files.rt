ghost use Rattle.std.specs.Prelude.{◌<◌, ◌^◌, ℕ, List, length, IfOk, IfErr};
ghost use Rattle.pc_syntax.specs.Written.{written_model};
ghost use Rattle.pc_front.specs.ModelFront.{ModelOf};
ghost use Rattle.pc_front.specs.Front.{IsEnd as IsEndOfTwo};
ghost use Rattle.ask_command.specs.Inquiries.{SaysInquiry, IsEnd};
ghost use Rattle.ask_command.specs.Judged.{IsJudged};

use super::denial::close_formula;
use super::formula::read_formula;
use super::inquiry::Inquiry;
use litmus_reader::read_case;
use pc_front::{FrontEnd, judge_model, parse_bytes, parts_of};
use pc_ground::Parts;
use pc_syntax::ModelFile;
use std::alloc::Global;

/// What a model as written and the bytes of a test say together.
fn judged_parts(alloc: Global, model: &ModelFile, test_bytes: &[u8]) -> Result<Parts, FrontEnd>
    requires spelled { (bytes : List ℕ) × ModelOf bytes (written_model model.now) }
    requires short { length test_bytes.now < 2 ^ 32 }
    ensures ok { IfOk result (IsJudged (written_model model.now) test_bytes.now) }
    ensures err { IfErr result (λ end. (bytes : List ℕ) → ModelOf bytes (written_model model.now)
        → IsEndOfTwo bytes test_bytes.now end) }
{
    let front = judge_model(alloc, model)?;
    let case = read_case(alloc, test_bytes)?;
    Ok(parts_of(case, front))
}

/// What the bytes of a model, of a test and of a query say together: the test's case, the model's stages, its axioms
/// closed, and the query's formula closed.
///
/// `Refused` comes with the first fault of the three files: the model's, where it has none the test's, and where these
/// have none the query's. The sizes of the files aren't judged.
///
/// Takes time and memory as `read_model` does, and once more the expanded axioms.
pub fn read_inquiry(
    alloc: Global,
    model_bytes: &[u8],
    test_bytes: &[u8],
    query_bytes: &[u8],
) -> Result<Inquiry, FrontEnd>
    requires model_short { length model_bytes.now < 2 ^ 32 }
    requires test_short { length test_bytes.now < 2 ^ 32 }
    requires query_short { length query_bytes.now < 2 ^ 32 }
    ensures ok { IfOk result (SaysInquiry model_bytes.now test_bytes.now query_bytes.now) }
    ensures err { IfErr result (IsEnd model_bytes.now test_bytes.now query_bytes.now) }
{
    let model = parse_bytes(alloc, model_bytes)?;
    let parts = judged_parts(alloc, &model, test_bytes)?;
    let written = read_formula(alloc, query_bytes)?;
    let formula = close_formula(alloc, model, written)?;
    Ok(Inquiry { parts, formula })
}
