ghost use Rattle.std.specs.Prelude.{◌≡◌, ◌^◌, ◌<◌, ◌≤◌, ◌++◌, length, IfOk, IfErr, OnOk};
ghost use Rattle.uspec_lexer.specs.Spells.{SpellsFrom, Spells};
ghost use Rattle.uspec_lexer.specs.Scan.{spans_of_piece};
ghost use Rattle.uspec_lexer.specs.Fault.{IsRefusalFrom, IsLexicalRefusal};

use super::fault::LexFault;
use super::grammar::LexicalGrammar;
use super::list::{Span, Tokens};
use super::models::Models;
use super::scan::{Form, Piece, piece_at};
use pc_common::{Memory, Place};
use std::alloc::Global;

/// The tokens of a model or a test, in the order in which they stand in `bytes`.
///
/// Blanks and comments are left out. `Lexical` is the first place where no piece begins or the piece
/// that begins can't be completed. Takes time linear in the bytes, and memory for one span a token.
pub fn tokens<'a>(alloc: Global, bytes: &'a [u8]) -> Result<Tokens<'a>, LexFault>
    requires { length bytes.now < 2 ^ 32 }
    ensures ok { IfOk result (λ ts. Spells bytes.now ts) }
    ensures err { IfErr result (λ e. IsLexicalRefusal bytes.now e) }
{
    tokens_from::<Models>(alloc, bytes, 0)
}

/// [`tokens`] of any lexical grammar, from the place `from` on.
pub fn tokens_from<'a, L: LexicalGrammar>(
    alloc: Global,
    bytes: &'a [u8],
    from: usize,
) -> Result<Tokens<'a>, LexFault>
    requires few { length bytes.now < 2 ^ 32 }
    requires within { from ≤ length bytes.now }
    ensures ok { IfOk result (λ ts. SpellsFrom L.table bytes.now from ts) }
    ensures err { IfErr result (λ e. IsRefusalFrom L.table bytes.now from e) }
{
    let mut spans = Vec::new(alloc);
    let mut at = from;
    while at < bytes.len() {
        let Some(piece) = piece_at::<L>(bytes, at) else {
            return Err(LexFault::Lexical(Place { offset: at as u32 }));
        };
        keep(&mut spans, at, piece)?;
        at = piece.end;
    }
    Ok(Tokens::from_spans(bytes, spans))
}

/// Puts the token that the piece at `at` is after the earlier ones, if it is one.
fn keep(spans: &mut Vec<Span>, at: usize, piece: Piece) -> Result<(), Memory>
    requires rises { at ≤ piece.end }
    requires few { piece.end < 2 ^ 32 }
    ensures { OnOk result (spans.new.items ≡ spans.old.items ++ spans_of_piece at piece) }
{
    if let Form::Token(kind) = piece.form {
        spans.push(Span {
            kind,
            at: at as u32,
            len: (piece.end - at) as u32,
        })?;
    }
    Ok(())
}
