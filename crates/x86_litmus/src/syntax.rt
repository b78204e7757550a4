ghost use Rattle.std.specs.Prelude.{IfOk};
ghost use Rattle.ll_grammar.specs.FirstFault.{IsSyntaxAnswer};
ghost use Rattle.x86_litmus.specs.Syntax.{IsListing};

use super::phrase::Phrase;
use ll_grammar::{fault_place, first_fault};
use pc_common::Memory;
use std::alloc::Global;
use uspec_lexer::Tokens;

/// The place among the tokens where no listing goes on, or `None` for a listing. The end counts as one more
/// token.
pub(crate) fn syntax_fault(alloc: Global, tokens: &Tokens<'_>) -> Result<Option<usize>, Memory>
    ensures { IfOk result (IsSyntaxAnswer IsListing tokens.now) }
{
    let terminals = tokens.terminals(alloc)?;
    Ok(fault_place(first_fault(alloc, Phrase::Listing, &terminals)?))
}
