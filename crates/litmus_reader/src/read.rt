ghost use Rattle.std.specs.Prelude.{◌<◌, ◌^◌, [], length, IfOk, IfErr, OnOk};
ghost use Rattle.uspec_lexer.specs.Spells.{Spells};
ghost use Rattle.litmus_reader.specs.Syntax.{IsTest};
ghost use Rattle.litmus_reader.specs.Builder.{HasLines, HasTest};
ghost use Rattle.litmus_reader.specs.Lists.{case_by, AreLists};
ghost use Rattle.litmus_reader.specs.Answer.{CaseOf, IsCaseFault, CaseIn, IsContentFaultIn};

use super::builder::CaseBuilder;
use super::fault::CaseFault;
use super::lists::CaseLists;
use super::reading::item_at;
use super::syntax::syntax_fault;
use pc_case::Case;
use std::alloc::Global;
use uspec_lexer::{Tokens, tokens};

/// The case that a test file says.
///
/// `Lexical` and `Syntax` come before every fault of content, and the lines are judged in their order,
/// each by the lines before it. Takes time linear in the bytes, and memory for the tokens and for what
/// the lines say. The condition is met by every file of fewer than 2^32 bytes.
pub fn read_case(alloc: Global, bytes: &[u8]) -> Result<Case, CaseFault>
    requires { length bytes.now < 2 ^ 32 }
    ensures ok { IfOk result (CaseOf bytes.now) }
    ensures err { IfErr result (IsCaseFault bytes.now) }
{
    let lists = read_lists(alloc, bytes)?;
    Ok(lists.into_case(alloc)?)
}

/// The lists of the case that a test file says, with the faults of `read_case`.
pub fn read_lists(alloc: Global, bytes: &[u8]) -> Result<CaseLists, CaseFault>
    requires { length bytes.now < 2 ^ 32 }
    ensures ok { IfOk result (λ l. CaseOf bytes.now (case_by l)) }
    ensures kept { IfOk result AreLists }
    ensures err { IfErr result (IsCaseFault bytes.now) }
{
    let tokens = tokens(alloc, bytes)?;
    lists_of_tokens(alloc, bytes, &tokens)
}

/// The lists of the tokens of these bytes.
fn lists_of_tokens(alloc: Global, bytes: &[u8], tokens: &Tokens<'_>) -> Result<CaseLists, CaseFault>
    requires spelled { Spells bytes.now tokens.now }
    requires few { length bytes.now < 2 ^ 32 }
    ensures ok { IfOk result (λ l. CaseOf bytes.now (case_by l)) }
    ensures kept { IfOk result AreLists }
    ensures err { IfErr result (IsCaseFault bytes.now) }
{
    if let Some(k) = syntax_fault(alloc, tokens)? {
        return Err(CaseFault::Syntax(tokens.place(bytes, k)));
    }
    lists_of_test(alloc, tokens)
}

/// The lists of tokens that are a test.
fn lists_of_test(alloc: Global, tokens: &Tokens<'_>) -> Result<CaseLists, CaseFault>
    requires { IsTest tokens.now }
    ensures ok { IfOk result (λ l. CaseIn tokens.now (case_by l)) }
    ensures kept { IfOk result AreLists }
    ensures err { IfErr result (IsContentFaultIn tokens.now) }
{
    let mut builder = CaseBuilder::new(alloc);
    read_lines(alloc, tokens, &mut builder)?;
    Ok(builder.lists(alloc)?)
}

/// How many tokens stand before the first line: the word of the format, a text and a dot.
const TITLE: usize = 3;

/// Takes the lines of tokens that are a test.
fn read_lines(
    alloc: Global,
    tokens: &Tokens<'_>,
    builder: &mut CaseBuilder,
) -> Result<(), CaseFault>
    requires test { IsTest tokens.now }
    requires first { HasLines builder.old [] }
    ensures ok { OnOk result (HasTest tokens.now builder.new) }
    ensures err { IfErr result (IsContentFaultIn tokens.now) }
{
    let mut at = TITLE;
    while at < tokens.len() {
        let (item, next) = item_at(alloc, tokens, at)?;
        builder.add(item)?;
        at = next;
    }
    Ok(())
}
