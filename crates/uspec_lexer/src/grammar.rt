ghost use Rattle.std.specs.Prelude.{◌≡◌};
ghost use Rattle.uspec_lexer.specs.Table.{Table};

/// What a piece is, as its first byte and the one after it tell.
#[derive(Clone, Copy)]
pub enum Opening {
    Blank,
    /// A comment up to the line's end.
    LineComment,
    /// A comment up to `*)`.
    BlockComment,
    Name,
    Number,
    /// A text, up to a double quote.
    Text,
    /// A symbol of one byte.
    ShortSymbol,
    /// A symbol of two bytes.
    LongSymbol,
    /// No piece begins so.
    Nothing,
}

/// A lexical grammar: `table` is what it chooses for itself. Blanks, the first bytes of names and numbers, and
/// `(*` are the same in each.
pub trait LexicalGrammar {
    ghost table: { Table };

    /// What `first` begins with `second` after it, which is NUL at the text's end. It is asked where `first` is no
    /// blank, letter or digit, and the two are not `(*`.
    fn opening(first: u8, second: u8) -> Opening
        ensures { result ≡ table.opening first second };

    /// Whether a name goes on with `byte`.
    fn is_name_byte(byte: u8) -> bool
        ensures { result ≡ table.is_name_byte byte };
}
