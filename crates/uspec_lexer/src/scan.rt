ghost use Rattle.std.specs.Prelude.{◌≡◌, ℕ, ◌+◌, ◌<◌, length, slice_index, MatchOption};
ghost use Rattle.uspec_lexer.specs.Bytes.{number_value};
ghost use Rattle.uspec_lexer.specs.Piece.{opening_at as opening_spec, IsBlockComment};
ghost use Rattle.uspec_lexer.specs.Scan.{IsPieceAt};
ghost use Rattle.uspec_lexer.specs.declared.grammar.Opening.TheVariants.{Number, Text, BlockComment};

use super::class::{Class, is_blank};
use super::grammar::{LexicalGrammar, Opening};
use super::token::TokenKind;

/// What a piece of a text is.
#[derive(Clone, Copy)]
pub(crate) enum Form {
    Blank,
    Comment,
    Token(TokenKind),
}

/// A piece whose first byte is known, with the place after its last one.
#[derive(Clone, Copy)]
pub(crate) struct Piece {
    pub(crate) form: Form,
    /// In bytes from the file's start.
    pub(crate) end: usize,
}

impl Piece {
    fn new(form: Form, end: usize) -> Self
        ensures { result ≡ record { form = form; end = end } }
    {
        Piece { form, end }
    }
}

/// The byte at `k`, or NUL after the end.
pub fn byte_or_nul(bytes: &[u8], k: usize) -> u8
    ensures { result ≡ slice_index bytes.now k }
{
    bytes.get(k).copied().unwrap_or(0)
}

/// What the byte at `at` begins, with the one after it.
#[tactic(auto, unfolding(crate::specs::Piece::opening_at))]
fn opening_at<L: LexicalGrammar>(bytes: &[u8], at: usize) -> Opening
    requires { at < length bytes.now }
    ensures { result ≡ opening_spec L.table bytes.now at }
{
    let first = bytes[at];
    let second = byte_or_nul(bytes, at + 1);
    if is_blank(first) {
        Opening::Blank
    } else if first.is_ascii_alphabetic() {
        Opening::Name
    } else if first.is_ascii_digit() {
        Opening::Number
    } else if first == b'(' && second == b'*' {
        Opening::BlockComment
    } else {
        L::opening(first, second)
    }
}

/// The value of decimal digits, or `None` past the greatest `u64`.
#[tactic(auto, using(crate::proofs::Digits::digits_so_far))]
fn value_of(digits: &[u8]) -> Option<u64>
    ensures { MatchOption result (18446744073709551615 < number_value digits.now)
        (λ value. value ≡ number_value digits.now) }
{
    let mut value: u64 = 0;
    for digit in digits {
        value = value
            .checked_mul(10)?
            .checked_add(u64::from(digit.saturating_sub(b'0')))?;
    }
    Some(value)
}

/// The number that begins at `at`.
fn number_at<L: LexicalGrammar>(bytes: &[u8], at: usize) -> Option<Piece>
    requires within { at < length bytes.now }
    requires opens { opening_spec L.table bytes.now at ≡ Number }
    ensures { IsPieceAt L.table bytes.now at result }
{
    let end = Class::Digit.run_end::<L>(bytes, at + 1);
    let value = value_of(&bytes[at..end])?;
    Some(Piece::new(Form::Token(TokenKind::Number(value)), end))
}

/// The text whose opening quote stands at `at`.
fn text_at<L: LexicalGrammar>(bytes: &[u8], at: usize) -> Option<Piece>
    requires within { at < length bytes.now }
    requires opens { opening_spec L.table bytes.now at ≡ Text }
    ensures { IsPieceAt L.table bytes.now at result }
{
    let end = Class::TextByte.run_end::<L>(bytes, at + 1);
    if end < bytes.len() && bytes[end] == b'"' {
        Some(Piece::new(Form::Token(TokenKind::Text), end + 1))
    } else {
        None
    }
}

/// The end of the comment whose `(*` stands at `at`.
fn block_comment_end(bytes: &[u8], at: usize) -> Option<usize>
    requires { at < length bytes.now }
    ensures { MatchOption result ((b : ℕ) → ¬ IsBlockComment bytes.now at b) (λ end. IsBlockComment bytes.now at end) }
{
    let mut end = at + 2;
    while end + 1 < bytes.len() {
        if bytes[end] == b'*' && bytes[end + 1] == b')' {
            return Some(end + 2);
        }
        end += 1;
    }
    None
}

/// The comment whose `(*` stands at `at`.
fn block_comment_at<L: LexicalGrammar>(bytes: &[u8], at: usize) -> Option<Piece>
    requires within { at < length bytes.now }
    requires opens { opening_spec L.table bytes.now at ≡ BlockComment }
    ensures { IsPieceAt L.table bytes.now at result }
{
    let end = block_comment_end(bytes, at)?;
    Some(Piece::new(Form::Comment, end))
}

/// The piece that begins at `at`: the longest one.
pub(crate) fn piece_at<L: LexicalGrammar>(bytes: &[u8], at: usize) -> Option<Piece>
    requires { at < length bytes.now }
    ensures { IsPieceAt L.table bytes.now at result }
{
    match opening_at::<L>(bytes, at) {
        Opening::Blank => Some(Piece::new(Form::Blank, at + 1)),
        Opening::LineComment => {
            let end = Class::LineByte.run_end::<L>(bytes, at + 1);
            Some(Piece::new(Form::Comment, end))
        }
        Opening::BlockComment => block_comment_at::<L>(bytes, at),
        Opening::Name => {
            let end = Class::NameByte.run_end::<L>(bytes, at + 1);
            Some(Piece::new(Form::Token(TokenKind::Name), end))
        }
        Opening::Number => number_at::<L>(bytes, at),
        Opening::Text => text_at::<L>(bytes, at),
        Opening::ShortSymbol => Some(Piece::new(Form::Token(TokenKind::Symbol), at + 1)),
        Opening::LongSymbol if at + 1 < bytes.len() => {
            Some(Piece::new(Form::Token(TokenKind::Symbol), at + 2))
        }
        Opening::LongSymbol | Opening::Nothing => None,
    }
}
