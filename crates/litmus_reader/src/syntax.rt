ghost use Rattle.std.specs.Prelude.{IfOk};
ghost use Rattle.ll_grammar.specs.FirstFault.{IsSyntaxAnswer};
ghost use Rattle.litmus_reader.specs.Syntax.{IsTest};

use super::phrase::Phrase;
use ll_grammar::{fault_place, first_fault};
use pc_common::Memory;
use std::alloc::Global;
use uspec_lexer::Tokens;

/// The place among the tokens where no test goes on, or `None` for a test. The end counts as one more
/// token.
pub(crate) fn syntax_fault(alloc: Global, tokens: &Tokens<'_>) -> Result<Option<usize>, Memory>
    ensures { IfOk result (IsSyntaxAnswer IsTest tokens.now) }
{
    let terminals = tokens.terminals(alloc)?;
    Ok(fault_place(first_fault(alloc, Phrase::Test, &terminals)?))
}
