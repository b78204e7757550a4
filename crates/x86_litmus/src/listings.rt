ghost use Rattle.std.specs.Prelude.{◌≡◌};
ghost use Rattle.x86_litmus.specs.Tokens.{listings, is_short_symbol as short_spec};

use uspec_lexer::{LexicalGrammar, Opening};

/// The lexical grammar of listings behind their header.
pub struct Listings;

impl LexicalGrammar for Listings {
    ghost table = { listings };

    fn opening(first: u8, second: u8) -> Opening {
        if first == b'/' && second == b'\\' {
            Opening::LongSymbol
        } else if is_short_symbol(first) {
            Opening::ShortSymbol
        } else {
            Opening::Nothing
        }
    }

    /// A letter, a digit or `_`.
    fn is_name_byte(byte: u8) -> bool {
        byte.is_ascii_alphabetic() || byte.is_ascii_digit() || byte == b'_'
    }
}

fn is_short_symbol(byte: u8) -> bool
    ensures { result ≡ short_spec byte }
{
    b"{};|[],$:=()~".contains(&byte)
}
