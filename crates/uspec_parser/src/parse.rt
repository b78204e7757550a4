ghost use Rattle.std.specs.Prelude.{◌≡◌, IfOk, IfErr};
ghost use Rattle.ll_grammar.specs.FirstFault.{IsAnswer, IsAccepted, IsFirstTokenFault};
ghost use Rattle.pc_syntax.specs.Written.{written, written_model};
ghost use Rattle.uspec_parser.specs.Marks.{IsMarkedFormula, IsMarkedModel};
ghost use Rattle.uspec_parser.specs.Syntax.{DerivesFormula, DerivesModel};
ghost use Rattle.uspec_parser.specs.Answers.{terminals, refusal_of, IsParseRefusal};

use super::cursor::Cursor;
use super::fault::ParseFault;
use super::level::Level;
use super::phrase::Phrase;
use super::terminal::Terminal;
use ll_grammar::{Fault, first_fault};
use pc_common::Memory;
use pc_syntax::{Formula, ModelFile};
use std::alloc::Global;
use uspec_lexer::Tokens;

fn formula_fault(alloc: Global, terminals: &[Terminal]) -> Result<Option<Fault>, Memory>
    ensures { IfOk result (IsAnswer IsMarkedFormula terminals.now) }
{
    first_fault(alloc, Phrase::Operand(Level::new(0), 0), terminals)
}

fn model_fault(alloc: Global, terminals: &[Terminal]) -> Result<Option<Fault>, Memory>
    ensures { IfOk result (IsAnswer IsMarkedModel terminals.now) }
{
    first_fault(alloc, Phrase::Items, terminals)
}

fn refusal(fault: Fault) -> ParseFault
    ensures { result ≡ refusal_of fault }
{
    match fault {
        Fault::Syntax(at) => ParseFault::Syntax(at),
        Fault::Depth(at) => ParseFault::Depth(at),
    }
}

/// The tree of the tokens, which are one formula and nothing more.
///
/// `Syntax` and `Depth` name the first fault of the tokens. Takes time linear in the tokens and their
/// bytes; calls nest no deeper than openers may.
pub fn parse_formula(alloc: Global, tokens: &Tokens<'_>) -> Result<Formula, ParseFault>
    ensures tree { IfOk result (λ f. DerivesFormula tokens.now (written f)) }
    ensures accepted { IfOk result (λ f. IsAccepted IsMarkedFormula (terminals tokens.now)) }
    ensures fault { IfErr result (λ e. IsParseRefusal IsMarkedFormula (terminals tokens.now) e) }
{
    let terminals = tokens.terminals(alloc)?;
    if let Some(fault) = formula_fault(alloc, &terminals)? {
        return Err(refusal(fault));
    }
    let mut cursor = Cursor::new(tokens, &terminals);
    Ok(cursor.formula(alloc)?)
}

/// The tree of the tokens, which are a model file.
///
/// `Syntax` and `Depth` name the first fault of the tokens. Takes time linear in the tokens and their
/// bytes; calls nest no deeper than openers may.
pub fn parse_model(alloc: Global, tokens: &Tokens<'_>) -> Result<ModelFile, ParseFault>
    ensures tree { IfOk result (λ m. DerivesModel tokens.now (written_model m)) }
    ensures accepted { IfOk result (λ m. IsAccepted IsMarkedModel (terminals tokens.now)) }
    ensures fault { IfErr result (λ e. IsParseRefusal IsMarkedModel (terminals tokens.now) e) }
{
    let terminals = tokens.terminals(alloc)?;
    if let Some(fault) = model_fault(alloc, &terminals)? {
        return Err(refusal(fault));
    }
    let mut cursor = Cursor::new(tokens, &terminals);
    Ok(cursor.model(alloc)?)
}
