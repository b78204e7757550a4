ghost use Rattle.std.specs.Prelude.{◌≡◌};
ghost use Rattle.x86_litmus.specs.Terminals.{terminal_of as terminal_spec, word_terminal as word_spec, symbol_terminal as symbol_spec};

use ll_grammar::TokenClass;
use uspec_lexer::{FromToken, Token, TokenKind, by_spelling};

/// The classes of a listing's tokens: the terminals of its grammar.
#[derive(Clone, Copy, PartialEq, Eq)]
pub(crate) enum Terminal {
    Mov,
    Mfence,
    Exists,
    /// Any other name. A word of the grammar is a name too, and stands wherever a name may.
    Name,
    Number,
    OpenBrace,
    CloseBrace,
    Semicolon,
    Bar,
    OpenBracket,
    CloseBracket,
    Comma,
    Dollar,
    Colon,
    Equals,
    Open,
    Close,
    Tilde,
    And,
    /// No word, number or symbol of a listing.
    Other,
}

impl TokenClass for Terminal {
    fn is_same(self, other: Self) -> bool {
        self == other
    }
}

impl FromToken for Terminal {
    ghost seen = { terminal_spec };

    fn from_token(token: Token<'_>) -> Self {
        match token.kind {
            TokenKind::Name => word_terminal(token.piece),
            TokenKind::Number(_) => Terminal::Number,
            TokenKind::Text => Terminal::Other,
            TokenKind::Symbol => symbol_terminal(token.piece),
        }
    }
}

#[tactic(auto, unfolding(crate::specs::Terminals::word_terminal))]
fn word_terminal(word: &[u8]) -> Terminal
    ensures { result ≡ word_spec word.now }
{
    by_spelling!(word;
        b"MOV" => Terminal::Mov, b"MFENCE" => Terminal::Mfence, b"exists" => Terminal::Exists;
        Terminal::Name)
}

#[tactic(auto, unfolding(crate::specs::Terminals::symbol_terminal))]
fn symbol_terminal(symbol: &[u8]) -> Terminal
    ensures { result ≡ symbol_spec symbol.now }
{
    by_spelling!(symbol;
        b"{" => Terminal::OpenBrace, b"}" => Terminal::CloseBrace, b";" => Terminal::Semicolon,
        b"|" => Terminal::Bar, b"[" => Terminal::OpenBracket, b"]" => Terminal::CloseBracket,
        b"," => Terminal::Comma, b"$" => Terminal::Dollar, b":" => Terminal::Colon,
        b"=" => Terminal::Equals, b"(" => Terminal::Open, b")" => Terminal::Close,
        b"~" => Terminal::Tilde, b"/\\" => Terminal::And;
        Terminal::Other)
}
