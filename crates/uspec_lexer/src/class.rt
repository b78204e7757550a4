ghost use Rattle.std.specs.Prelude.{◌≡◌, ◌≤◌, length};
ghost use Rattle.uspec_lexer.specs.Bytes.{is_blank as is_blank_spec, is_text_byte as is_text_byte_spec};
ghost use Rattle.uspec_lexer.specs.Piece.{IsRun};
ghost use Rattle.uspec_lexer.specs.Scan.{is_in};

use super::grammar::LexicalGrammar;

/// A class of bytes that go on with a piece.
#[derive(Clone, Copy)]
pub(crate) enum Class {
    /// As the lexical grammar says.
    NameByte,
    /// `0` to `9`.
    Digit,
    /// What stands between a text's quotes.
    TextByte,
    /// Any byte but LF.
    LineByte,
}

impl Class {
    pub(crate) fn has<L: LexicalGrammar>(self, byte: u8) -> bool
        ensures { result ≡ is_in L.table self byte }
    {
        match self {
            Class::NameByte => L::is_name_byte(byte),
            Class::Digit => byte.is_ascii_digit(),
            Class::TextByte => is_text_byte(byte),
            Class::LineByte => byte != b'\n',
        }
    }

    /// Where the run of this class that begins at `from` ends.
    pub(crate) fn run_end<L: LexicalGrammar>(self, bytes: &[u8], from: usize) -> usize
        requires { from ≤ length bytes.now }
        ensures { IsRun (is_in L.table self) bytes.now from result }
    {
        let mut end = from;
        while end < bytes.len() && self.has::<L>(bytes[end]) {
            end += 1;
        }
        end
    }
}

pub(crate) fn is_blank(byte: u8) -> bool
    ensures { result ≡ is_blank_spec byte }
{
    byte == b' ' || byte == b'\t' || byte == b'\r' || byte == b'\n'
}

/// Whether `byte` may stand between a text's quotes.
fn is_text_byte(byte: u8) -> bool
    ensures { result ≡ is_text_byte_spec byte }
{
    b' ' <= byte && byte <= b'~' && byte != b'"'
}
