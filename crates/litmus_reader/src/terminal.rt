ghost use Rattle.std.specs.Prelude.{◌≡◌};
ghost use Rattle.uspec_lexer.specs.View.{plain};
ghost use Rattle.litmus_reader.specs.Terminals.{terminal_of as terminal_spec, word_terminal as word_spec, symbol_terminal as symbol_spec};

use ll_grammar::TokenClass;
use uspec_lexer::{FromToken, Token, TokenKind, by_spelling};

/// The classes of a test's tokens: the terminals of its grammar.
#[derive(Clone, Copy, PartialEq, Eq)]
pub(crate) enum Terminal {
    Litmus,
    Litmus2,
    Microop,
    Relationship,
    Init,
    Final,
    Permitted,
    Forbidden,
    Read,
    Write,
    Fence,
    Va,
    Pa,
    Entry,
    Data,
    Maps,
    /// Any other name. A word of the grammar is a name too, and stands wherever a name may.
    Name,
    Number,
    Text,
    Open,
    Close,
    Dot,
    Arrow,
    /// A symbol that stands in no test.
    Other,
}

impl TokenClass for Terminal {
    fn is_same(self, other: Self) -> bool {
        self == other
    }
}

impl FromToken for Terminal {
    ghost seen = { terminal_spec };

    fn from_token(token: Token<'_>) -> Self {
        match token.kind {
            TokenKind::Name => word_terminal(token.piece),
            TokenKind::Number(_) => Terminal::Number,
            TokenKind::Text => Terminal::Text,
            TokenKind::Symbol => symbol_terminal(token.piece),
        }
    }
}

#[tactic(auto, unfolding(crate::specs::Terminals::word_terminal))]
fn word_terminal(word: &[u8]) -> Terminal
    ensures { result ≡ word_spec word.now }
{
    by_spelling!(word;
        b"Litmus" => Terminal::Litmus, b"Litmus2" => Terminal::Litmus2,
        b"Microop" => Terminal::Microop, b"Relationship" => Terminal::Relationship,
        b"Init" => Terminal::Init, b"Final" => Terminal::Final,
        b"Permitted" => Terminal::Permitted, b"Forbidden" => Terminal::Forbidden,
        b"Read" => Terminal::Read, b"Write" => Terminal::Write, b"Fence" => Terminal::Fence,
        b"VA" => Terminal::Va, b"PA" => Terminal::Pa, b"Entry" => Terminal::Entry,
        b"Data" => Terminal::Data, b"Maps" => Terminal::Maps;
        Terminal::Name)
}

#[tactic(auto, unfolding(crate::specs::Terminals::symbol_terminal))]
fn symbol_terminal(symbol: &[u8]) -> Terminal
    ensures { result ≡ symbol_spec symbol.now }
{
    by_spelling!(symbol;
        b"(" => Terminal::Open, b")" => Terminal::Close, b"." => Terminal::Dot,
        b"->" => Terminal::Arrow;
        Terminal::Other)
}
