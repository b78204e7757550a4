ghost use Rattle.std.specs.Prelude.{◌≡◌, ◌<◌, ◌^◌, length, IfOk, IfErr, OnOk};
ghost use Rattle.x86_litmus.specs.Syntax.{IsListing};
ghost use Rattle.x86_litmus.specs.Said.{nothing};
ghost use Rattle.x86_litmus.specs.Plain.{plain_said};
ghost use Rattle.x86_litmus.specs.Answer.{IsBody, CaseOf, IsX86Fault};
ghost use Rattle.x86_litmus.specs.Reading.{IsReadTo, IsFaultIn, CaseIn, IsListingFault};

use super::case_of::case_of;
use super::fault::X86Fault;
use super::faults::open_fault;
use super::header::body_of;
use super::listings::Listings;
use super::said::Said;
use super::spot::Spot;
use super::syntax::syntax_fault;
use pc_case::Case;
use pc_common::Place;
use std::alloc::Global;
use uspec_lexer::{Tokens, tokens_from};

/// The case that a listing says.
///
/// A fault of the header comes before the lexical ones, these before those of syntax, and these before those of
/// content, which are in the order of the text, but that `X86Open` comes last. Takes time linear in the bytes, and
/// memory for the tokens and for what the listing says. The condition is met by every file of fewer than 2^32 bytes.
pub fn read_x86(alloc: Global, bytes: &[u8]) -> Result<Case, X86Fault>
    requires { length bytes.now < 2 ^ 32 }
    ensures ok { IfOk result (CaseOf bytes.now) }
    ensures err { IfErr result (IsX86Fault bytes.now) }
{
    let from = match body_of(bytes) {
        Ok(from) => from,
        Err(place) => return Err(X86Fault::Syntax(place)),
    };
    let tokens = tokens_from::<Listings>(alloc, bytes, from)?;
    case_of_tokens(alloc, bytes, &tokens)
}

/// The case of the tokens of the body of these bytes.
fn case_of_tokens(alloc: Global, bytes: &[u8], tokens: &Tokens<'_>) -> Result<Case, X86Fault>
    requires spelled { IsBody bytes.now tokens.now }
    requires few { length bytes.now < 2 ^ 32 }
    ensures ok { IfOk result (CaseOf bytes.now) }
    ensures err { IfErr result (IsX86Fault bytes.now) }
{
    if let Some(k) = syntax_fault(alloc, tokens)? {
        return Err(X86Fault::Syntax(tokens.place(bytes, k)));
    }
    case_of_listing(alloc, tokens)
}

/// The case of tokens that are a listing.
fn case_of_listing(alloc: Global, tokens: &Tokens<'_>) -> Result<Case, X86Fault>
    requires { IsListing tokens.now }
    ensures ok { IfOk result (CaseIn tokens.now) }
    ensures err { IfErr result (IsListingFault tokens.now) }
{
    let mut said = Said::new(alloc);
    read_items(tokens, &mut said)?;
    if let Some(fault) = open_fault(&said.asked, &said.instructions) {
        return Err(X86Fault::Content(fault.kind, fault.place));
    }
    Ok(case_of(alloc, &said)?)
}

/// Takes what the tokens of a listing say.
fn read_items<'a>(tokens: &Tokens<'a>, said: &mut Said<'a>) -> Result<(), X86Fault>
    requires { plain_said said.old ≡ nothing }
    ensures ok { OnOk result (IsReadTo tokens.now (plain_said said.new)) }
    ensures err { IfErr result (IsFaultIn tokens.now) }
{
    let mut spot = Spot::Block;
    for k in 0..tokens.len() {
        let (next, item) = spot.step(tokens.get(k));
        if let Some(item) = item {
            said.add(item)?;
        }
        spot = next;
    }
    Ok(())
}
