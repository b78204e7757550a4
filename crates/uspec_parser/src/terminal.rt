ghost use Rattle.std.specs.Prelude.{◌≡◌};
ghost use Rattle.uspec_lexer.specs.View.{plain};
ghost use Rattle.uspec_parser.specs.Terminals.{terminal_of as terminal_spec, word_terminal as word_spec, symbol_terminal as symbol_spec, text_terminal as text_spec, content as content_spec};

use ll_grammar::TokenClass;
use uspec_lexer::{FromToken, Token, TokenKind, by_spelling, is_name};

/// The classes of a model's tokens: the terminals of its grammar. Words that are alike to the grammar
/// and to the tree are one class.
#[derive(Clone, Copy, PartialEq, Eq)]
pub(crate) enum Terminal {
    StageName,
    Axiom,
    DefineMacro,
    ExpandMacro,
    Forall,
    Exists,
    /// `microop` and `microops`.
    Microop,
    /// `core` and `cores`.
    Core,
    /// `AddEdge` and `EdgeExists`.
    OneEdge,
    /// `AddEdges` and `EdgesExist`.
    EdgeList,
    /// `NodeExists`.
    OneNode,
    /// `NodesExist`.
    NodeList,
    /// A name that is not reserved.
    Name,
    Number,
    /// A text whose content is a name that is not reserved.
    Quoted,
    /// Any other text.
    Text,
    Open,
    Close,
    OpenBracket,
    CloseBracket,
    Comma,
    Semicolon,
    Colon,
    Dot,
    Not,
    And,
    Or,
    Implies,
    /// `->`, which stands in no model.
    Arrow,
}

impl TokenClass for Terminal {
    fn is_same(self, other: Self) -> bool {
        self == other
    }
}

impl FromToken for Terminal {
    ghost seen = { terminal_spec };

    fn from_token(token: Token<'_>) -> Self {
        match token.kind {
            TokenKind::Name => word_terminal(token.piece),
            TokenKind::Number(_) => Terminal::Number,
            TokenKind::Text => text_terminal(token.piece),
            TokenKind::Symbol => symbol_terminal(token.piece),
        }
    }
}

/// The terminal of a word: its own, if it is reserved.
#[tactic(auto, unfolding(crate::specs::Terminals::word_terminal))]
fn word_terminal(word: &[u8]) -> Terminal
    ensures { result ≡ word_spec word.now }
{
    by_spelling!(word;
        b"StageName" => Terminal::StageName, b"Axiom" => Terminal::Axiom,
        b"DefineMacro" => Terminal::DefineMacro, b"ExpandMacro" => Terminal::ExpandMacro,
        b"forall" => Terminal::Forall, b"exists" => Terminal::Exists,
        b"microop" => Terminal::Microop, b"microops" => Terminal::Microop,
        b"core" => Terminal::Core, b"cores" => Terminal::Core, b"AddEdge" => Terminal::OneEdge,
        b"EdgeExists" => Terminal::OneEdge, b"AddEdges" => Terminal::EdgeList,
        b"EdgesExist" => Terminal::EdgeList, b"NodeExists" => Terminal::OneNode,
        b"NodesExist" => Terminal::NodeList;
        Terminal::Name)
}

/// The terminal of a symbol. A token of this kind has the bytes of a symbol.
#[tactic(auto, unfolding(crate::specs::Terminals::symbol_terminal))]
fn symbol_terminal(symbol: &[u8]) -> Terminal
    ensures { result ≡ symbol_spec symbol.now }
{
    by_spelling!(symbol;
        b"(" => Terminal::Open, b")" => Terminal::Close, b"[" => Terminal::OpenBracket,
        b"]" => Terminal::CloseBracket, b"," => Terminal::Comma, b";" => Terminal::Semicolon,
        b":" => Terminal::Colon, b"." => Terminal::Dot, b"~" => Terminal::Not,
        b"/\\" => Terminal::And, b"\\/" => Terminal::Or, b"=>" => Terminal::Implies;
        Terminal::Arrow)
}

/// The terminal of a text, which is given with its quotes.
#[tactic(auto, unfolding(crate::specs::Terminals::text_terminal))]
fn text_terminal(text: &[u8]) -> Terminal
    ensures { result ≡ text_spec text.now }
{
    let content = content(text);
    if is_name(content) && word_terminal(content) == Terminal::Name {
        Terminal::Quoted
    } else {
        Terminal::Text
    }
}

/// What the quotes of a text enclose.
pub(crate) fn content(text: &[u8]) -> &[u8]
    ensures { result.now ≡ content_spec text.now }
{
    if text.len() < 2 {
        return &text[..0];
    }
    &text[1..text.len() - 1]
}
