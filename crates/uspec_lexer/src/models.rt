ghost use Rattle.std.specs.Prelude.{◌≡◌, ◌↔◌, IsTrue, length};
ghost use Rattle.std.specs.List.{list_all};
ghost use Rattle.std.specs.Char.{is_ascii_alphabetic};
ghost use Rattle.uspec_lexer.specs.Token.{name};
ghost use Rattle.uspec_lexer.specs.Bytes.{is_name_byte as name_byte_spec, is_name as name_spec};
ghost use Rattle.uspec_lexer.specs.Models.{models, opens_line as opens_line_spec, is_short_symbol as short_spec, is_long_symbol as long_spec};
ghost use Rattle.uspec_lexer.specs.Piece.{IsPiece, token};

use super::grammar::{LexicalGrammar, Opening};

/// The lexical grammar of models and tests.
pub struct Models;

impl LexicalGrammar for Models {
    ghost table = { models };

    fn opening(first: u8, second: u8) -> Opening {
        if first == b'"' {
            Opening::Text
        } else if opens_line(first, second) {
            Opening::LineComment
        } else if is_long_symbol(first, second) {
            Opening::LongSymbol
        } else if is_short_symbol(first) {
            Opening::ShortSymbol
        } else {
            Opening::Nothing
        }
    }

    fn is_name_byte(byte: u8) -> bool {
        is_name_byte(byte)
    }
}

/// Whether `%` or `//` stands there.
fn opens_line(first: u8, second: u8) -> bool
    ensures { result ≡ opens_line_spec first second }
{
    first == b'%' || (first == b'/' && second == b'/')
}

fn is_short_symbol(byte: u8) -> bool
    ensures { result ≡ short_spec byte }
{
    b"()[],;:.~".contains(&byte)
}

fn is_long_symbol(first: u8, second: u8) -> bool
    ensures { result ≡ long_spec first second }
{
    (first == b'/' && second == b'\\')
        || (first == b'\\' && second == b'/')
        || (first == b'=' && second == b'>')
        || (first == b'-' && second == b'>')
}

fn is_letter(byte: u8) -> bool
    ensures { result ≡ is_ascii_alphabetic byte }
{
    byte.is_ascii_alphabetic()
}

/// A letter, a digit, `_` or `'`.
fn is_name_byte(byte: u8) -> bool
    ensures { result ≡ name_byte_spec byte }
{
    is_letter(byte) || byte.is_ascii_digit() || byte == b'_' || byte == b'\''
}

fn are_name_bytes(bytes: &[u8]) -> bool
    ensures { result ≡ list_all name_byte_spec bytes.now }
{
    bytes.iter().all(|byte| is_name_byte(*byte))
}

/// Whether the bytes are a name of models and tests and nothing more: a letter, and then letters, digits, `_`
/// and `'`. Takes no memory.
#[tactic(auto, unfolding(crate::specs::Bytes::is_name))]
pub fn is_name(bytes: &[u8]) -> bool
    ensures value { result ≡ name_spec bytes.now }
    ensures piece { IsTrue result ↔ IsPiece models bytes.now (token name) 0 (length bytes.now) }
{
    match bytes {
        [] => false,
        [first, rest @ ..] => is_letter(*first) && are_name_bytes(rest),
    }
}
