ghost use Rattle.std.specs.Prelude.{◌≡◌};
ghost use Rattle.std.specs.Str.{bytes_eq};
ghost use Rattle.uspec_lexer.specs.Token.{Token as PlainToken};
ghost use Rattle.uspec_lexer.specs.View.{plain};

use pc_common::Place;

/// What a token is.
#[derive(Clone, Copy, PartialEq, Eq)]
pub enum TokenKind {
    /// A letter, and then what the lexical grammar has in a name.
    Name,
    /// Decimal digits, with their value.
    Number(u64),
    /// A text in double quotes, quotes included. Not each lexical grammar has texts.
    Text,
    /// One of the lexical grammar's symbols.
    Symbol,
}

/// A token: its kind and its span, which begins at `at` and has the length of `piece`.
#[derive(Clone, Copy)]
pub struct Token<'a> {
    pub kind: TokenKind,
    pub at: Place,
    pub piece: &'a [u8],
}

/// Whether a token's bytes are these.
pub fn is_spelled(piece: &[u8], bytes: &[u8]) -> bool
    ensures { result ≡ bytes_eq piece.now bytes.now }
{
    piece == bytes
}

/// What stands beside the bytes of a piece, or the last where none are its bytes, as in
/// `by_spelling!(piece; b"(" => Open, b")" => Close; Other)`.
#[macro_export]
macro_rules! by_spelling {
    ($piece:expr; $($bytes:literal => $terminal:expr),+; $other:expr) => {
        $(if $crate::is_spelled($piece, $bytes) { $terminal } else)+ { $other }
    };
}

/// What a grammar sees of a token: one of its terminals.
pub trait FromToken: Copy {
    ghost seen: { PlainToken → Self };

    fn from_token(token: Token<'_>) -> Self
        ensures { result ≡ seen (plain token.entry) };
}
