ghost use Rattle.std.specs.Prelude.{◌≡◌, ◌^◌, ◌+◌, ◌<◌, ◌≤◌, List, length, map, slice_get, All, vec_len, IfOk};
ghost use Rattle.uspec_lexer.specs.Token.{Token as PlainToken, token_place};
ghost use Rattle.uspec_lexer.specs.Span.{token_at, IsWithin};
ghost use Rattle.uspec_lexer.specs.View.{plain};

use super::token::{FromToken, Token, TokenKind};
use pc_common::{Memory, Place};
use std::alloc::Global;
use std::marker::Model;

/// Where a token stands, without its bytes.
#[derive(Clone, Copy)]
pub(crate) struct Span {
    pub(crate) kind: TokenKind,
    /// In bytes from the file's start.
    pub(crate) at: u32,
    pub(crate) len: u32,
}

/// The tokens of a text, whose bytes they borrow.
pub struct Tokens<'a> {
    bytes: &'a [u8],
    spans: Vec<Span>,
}

// By hand: docs/DECISIONS.md, "Drops are written by hand".
impl Drop for Tokens<'_> {
    fn drop(self) {
        let Tokens { bytes: _, spans: _ } = self;
    }
}

impl<'a> Model for Tokens<'a> {
    ghost Value = { List PlainToken };

    ghost view = { λ s. map (token_at s.bytes.now) s.spans.items };

    ghost invariant = { λ s. All (IsWithin s.bytes.now) s.spans.items × length s.spans.items < 2 ^ 63 };
}

impl<'a> Tokens<'a> {
    /// The tokens that stand at these spans of `bytes`. Takes no memory.
    pub(crate) fn from_spans(bytes: &'a [u8], spans: Vec<Span>) -> Self
        requires within { All (IsWithin bytes.now) spans.items }
        requires few { vec_len spans < 2 ^ 63 }
        ensures { result ≡ map (token_at bytes.now) spans.items }
    {
        Tokens { bytes, spans }
    }

    /// How many tokens there are. Takes no memory.
    pub fn len(&self) -> usize
        ensures value { result ≡ length self.now }
        ensures bound { length self.now < 2 ^ 63 }
    {
        self.spans.len()
    }

    /// The token at `k`, from 0. Takes no memory.
    pub fn get(&self, k: usize) -> Token<'a>
        requires { k < length self.now }
        ensures { slice_get self.now k ≡ Some (plain result) }
    {
        let span = self.spans[k];
        let from = span.at as usize;
        Token {
            kind: span.kind,
            at: Place { offset: span.at },
            piece: &self.bytes[from..from + span.len as usize],
        }
    }

    /// The place of the token at `k`, or of the end of `bytes` where there are no more than `k` tokens.
    /// Takes no memory.
    pub fn place(&self, bytes: &[u8], k: usize) -> Place
        requires { length bytes.now < 2 ^ 32 }
        ensures { result.offset ≡ token_place bytes.now self.now k }
    {
        if k < self.len() {
            self.get(k).at
        } else {
            Place {
                offset: bytes.len() as u32,
            }
        }
    }

    /// The terminals that a grammar sees in place of the tokens.
    pub fn terminals<T: FromToken>(&self, alloc: Global) -> Result<Vec<T>, Memory>
        ensures { IfOk result (λ terminals. terminals.items ≡ map T.seen self.now) }
    {
        let mut terminals = Vec::new(alloc);
        for k in 0..self.len() {
            terminals.push(T::from_token(self.get(k)))?;
        }
        Ok(terminals)
    }
}
