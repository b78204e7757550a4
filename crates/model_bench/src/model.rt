ghost use Rattle.std.specs.Prelude.{◌≡◌, ◌^◌, ◌<◌, length, IfSome};
ghost use Rattle.pc_syntax.specs.Written.{written_model};
ghost use Rattle.uspec_parser.specs.Syntax.{DerivesModel};
ghost use Rattle.pc_front.specs.ModelFront.{IsModelFront};

use pc_front::{ModelFront, read_model};
use pc_syntax::ModelFile;
use std::alloc::Global;
use uspec_lexer::{Tokens, tokens};
use uspec_parser::parse_model;

/// The tree of the tokens, or None where they have none or memory was refused.
fn parse_tokens(alloc: Global, tokens: &Tokens<'_>) -> Option<ModelFile>
    ensures { IfSome result (λ m. DerivesModel tokens.now (written_model m)) }
{
    match parse_model(alloc, tokens) {
        Ok(model) => Some(model),
        Err(_) => None,
    }
}

/// The stages and the closed axioms of the bytes, or None where these have a fault or memory was refused.
fn front(alloc: Global, bytes: &[u8]) -> Option<ModelFront>
    requires { length bytes.now < 2 ^ 32 }
    ensures { IfSome result (λ front. IsModelFront bytes.now front) }
{
    match read_model(alloc, bytes) {
        Ok(front) => Some(front),
        Err(_) => None,
    }
}

/// Whether the bytes are a model of the grammar. It is false too where memory was refused.
pub fn is_model(alloc: Global, bytes: &[u8]) -> bool
    requires { length bytes.now < 2 ^ 32 }
{
    match tokens(alloc, bytes) {
        Ok(tokens) => parse_tokens(alloc, &tokens).is_some(),
        Err(_) => false,
    }
}

/// Whether the bytes are a model without faults. It is false too where memory was refused.
pub fn is_without_faults(alloc: Global, bytes: &[u8]) -> bool
    requires { length bytes.now < 2 ^ 32 }
{
    front(alloc, bytes).is_some()
}
