ghost use Rattle.std.specs.Prelude.{◌≡◌, ℕ, ◌<◌, ◌≤◌, ◌^◌, IsTrue, List, [], ◌∷◌, drop, length, map, MatchOption, IfOk, OnOk, Some};
ghost use Rattle.uspec_lexer.specs.Token.{number};
ghost use Rattle.uspec_lexer.specs.Span.{kind_of_token};
ghost use Rattle.uspec_lexer.specs.View.{plain as plain_token};
ghost use Rattle.uspec_parser.specs.Terminals.{Lexeme, lexeme, terminal_of as terminal_spec, value as value_spec, is_placed};
ghost use Rattle.uspec_parser.specs.Descent.{next, behind, word as word_spec, place as place_spec, number as number_spec, number_place};

use super::terminal::{Terminal, content};
use pc_common::{Listed, Memory, Place, Shared};
use pc_syntax::Word;
use std::alloc::Global;
use std::marker::Model;
use uspec_lexer::{FromToken, Token, TokenKind, Tokens};

/// The tokens of a text that are still to be read, with their terminals.
#[derive(Drop)]
pub(crate) struct Cursor<'a> {
    tokens: &'a Tokens<'a>,
    terminals: &'a [Terminal],
    at: usize,
}

impl<'a> Model for Cursor<'a> {
    ghost Value = { List Lexeme };

    ghost view = { λ s. drop s.at (map lexeme s.tokens.now) };

    ghost invariant = { λ s. s.terminals.now ≡ map terminal_spec s.tokens.now };
}

impl<'a> Cursor<'a> {
    /// All of the tokens.
    pub(crate) fn new(tokens: &'a Tokens<'a>, terminals: &'a [Terminal]) -> Self
        requires { terminals.now ≡ map terminal_spec tokens.now }
        ensures { result ≡ map lexeme tokens.now }
    {
        Cursor {
            tokens,
            terminals,
            at: 0,
        }
    }

    /// The terminal that is read next, or after the end one that no text has.
    pub(crate) fn next(&self) -> Terminal
        ensures { result ≡ next self.now }
    {
        if self.at < self.terminals.len() {
            self.terminals[self.at]
        } else {
            Terminal::Arrow
        }
    }

    /// The token that is read next.
    fn token(&self) -> Option<Token<'a>>
        ensures { MatchOption result (self.now ≡ []) (λ t. self.now ≡ lexeme (plain_token t) ∷ behind self.now) }
    {
        if self.at < self.tokens.len() {
            Some(self.tokens.get(self.at))
        } else {
            None
        }
    }

    /// Goes on after the next token.
    pub(crate) fn skip(&mut self)
        ensures { self.new ≡ behind self.old }
    {
        if self.at < self.tokens.len() {
            self.at += 1;
        }
    }
}

impl<'a> Cursor<'a> {
    /// The place of the next token, where the tree keeps it.
    pub(crate) fn place(&self) -> Place
        requires { IsTrue (is_placed (next self.now)) }
        ensures { result ≡ place_spec self.now }
    {
        match self.token() {
            Some(token) => token.at,
            None => unreachable!(),
        }
    }

    /// The value and place of the next token if it is a number, else zeros: no text asks for a number
    /// where it has none.
    pub(crate) fn number(&self) -> (u64, Place)
        ensures value { result.0 ≡ number_spec self.now }
        ensures place { result.1 ≡ number_place self.now }
    {
        match self.token() {
            Some(token) if Terminal::from_token(token) == Terminal::Number => (
                value(token.kind),
                token.at,
            ),
            _ => (0, Place { offset: 0 }),
        }
    }

    /// The next token's name, or what its quotes enclose, if that is a name and not reserved, else an
    /// empty one: no text asks for a name where it has none.
    pub(crate) fn word(&self, alloc: Global) -> Result<Word, Memory>
        ensures { IfOk result (λ w. w ≡ word_spec self.now) }
    {
        let Some(token) = self.token() else {
            return copy_word(alloc, b"", Place { offset: 0 });
        };
        match Terminal::from_token(token) {
            Terminal::Name => copy_word(alloc, token.piece, token.at),
            Terminal::Quoted => copy_word(alloc, content(token.piece), token.at),
            _ => copy_word(alloc, b"", Place { offset: 0 }),
        }
    }
}

/// A word of these bytes.
fn copy_word(alloc: Global, bytes: &[u8], at: Place) -> Result<Word, Memory>
    ensures { IfOk result (λ w. w ≡ record { name = bytes.now; at = at }) }
{
    let mut name = Vec::new(alloc);
    name.extend_from_slice(bytes)?;
    Ok(Word {
        name: Shared::from_listed(Listed::from_vec(name))?,
        at,
    })
}

/// The value of a number.
fn value(kind: TokenKind) -> u64
    requires { (n : ℕ) × (kind_of_token kind ≡ number n) }
    ensures { result ≡ value_spec (kind_of_token kind) }
{
    match kind {
        TokenKind::Number(value) => value,
        TokenKind::Name | TokenKind::Text | TokenKind::Symbol => unreachable!(),
    }
}
