ghost use Rattle.std.specs.Prelude.{◌≡◌, ◌<◌, ◌^◌, length, IfOk, IfErr};
ghost use Rattle.pc_syntax.specs.Written.{written, WrittenModel};
ghost use Rattle.uspec_lexer.specs.Spells.{Spells};
ghost use Rattle.ask_command.specs.Queries.{FormulaOf, IsQueryEnd};

use super::ends::{move_end, no_tree};
use pc_common::Which;
use pc_front::FrontEnd;
use pc_syntax::Formula;
use std::alloc::Global;
use uspec_lexer::{Tokens, tokens};
use uspec_parser::parse_formula;

/// The formula as written.
pub(crate) fn read_formula(alloc: Global, bytes: &[u8]) -> Result<Formula, FrontEnd>
    requires { length bytes.now < 2 ^ 32 }
    ensures ok { IfOk result (λ f. FormulaOf bytes.now (written f)) }
    ensures err { IfErr result (λ end. (m : WrittenModel) → IsQueryEnd m bytes.now end) }
{
    match tokens(alloc, bytes) {
        Ok(tokens) => formula_of(alloc, bytes, &tokens),
        Err(fault) => Err(move_end(Which::Query, FrontEnd::from(fault))),
    }
}

/// The formula as written, from its tokens.
fn formula_of(alloc: Global, bytes: &[u8], tokens: &Tokens<'_>) -> Result<Formula, FrontEnd>
    requires short { length bytes.now < 2 ^ 32 }
    requires spelled { Spells bytes.now tokens.now }
    ensures ok { IfOk result (λ f. FormulaOf bytes.now (written f)) }
    ensures err { IfErr result (λ end. (m : WrittenModel) → IsQueryEnd m bytes.now end) }
{
    match parse_formula(alloc, tokens) {
        Ok(formula) => Ok(formula),
        Err(fault) => Err(no_tree(bytes, tokens, fault)),
    }
}
