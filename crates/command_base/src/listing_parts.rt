ghost use Rattle.std.specs.Prelude.{◌≡◌, ◌^◌, ◌<◌, length, IfOk, IfErr};
ghost use Rattle.x86_litmus.specs.Answer.{CaseOf};
ghost use Rattle.command_base.specs.Fronts.{front_of_parts};
ghost use Rattle.command_base.specs.SecondFiles.{SaysFront, IsFrontEnd};
ghost use Rattle.command_base.specs.Listings.{IsFirstListingFault, listing_end};

use pc_common::FaultKind;
use pc_front::{FrontEnd, parts_of, read_model, test_refusal};
use pc_ground::Parts;
use std::alloc::Global;
use x86_litmus::{X86Fault, read_x86};

/// How the fault of a listing ends the reading.
fn end_of(fault: X86Fault) -> FrontEnd
    ensures { result ≡ listing_end fault }
{
    match fault {
        X86Fault::Lexical(place) => test_refusal(FaultKind::Lexical, place),
        X86Fault::Syntax(place) => test_refusal(FaultKind::Syntax, place),
        X86Fault::Content(kind, place) => test_refusal(kind, place),
        X86Fault::Memory => FrontEnd::Memory,
    }
}

/// What the bytes of a model and of a listing say together: the listing's case, the model's stages, and its axioms
/// closed.
///
/// `Refused` comes with the first fault of the two files: the model's, and where it has none, the listing's.
/// The sizes of the files aren't judged.
pub(crate) fn read_listing_parts(
    alloc: Global,
    model_bytes: &[u8],
    bytes: &[u8],
) -> Result<Parts, FrontEnd>
    requires model_short { length model_bytes.now < 2 ^ 32 }
    requires short { length bytes.now < 2 ^ 32 }
    ensures ok { IfOk result (λ parts. SaysFront CaseOf model_bytes.now bytes.now (front_of_parts parts)) }
    ensures err { IfErr result (IsFrontEnd CaseOf IsFirstListingFault model_bytes.now bytes.now) }
{
    let model = read_model(alloc, model_bytes)?;
    match read_x86(alloc, bytes) {
        Ok(case) => Ok(parts_of(case, model)),
        Err(fault) => Err(end_of(fault)),
    }
}
