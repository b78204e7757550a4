//! Bytes cut into tokens.
use pc_common::Place;
use std::alloc::Global;
use uspec_lexer::TokenKind::{self, Name, Number, Symbol, Text};
use uspec_lexer::{LexFault, Tokens, tokens};

/// A text of the table, and its tokens: each with its kind, its place and how many bytes it has.
type Row = (&'static [u8], &'static [(TokenKind, u32, usize)]);

const READ: &[Row] = &[
    (b"", &[]),
    (b" \t\r\n", &[]),
    (b"a", &[(Name, 0, 1)]),
    (b"Bob's_2nd x'", &[(Name, 0, 9), (Name, 10, 2)]),
    (b"12ab", &[(Number(12), 0, 2), (Name, 2, 2)]),
    (b"0007", &[(Number(7), 0, 4)]),
    (
        b"18446744073709551615",
        &[(Number(18446744073709551615), 0, 20)],
    ),
    (
        b"00018446744073709551615",
        &[(Number(18446744073709551615), 0, 23)],
    ),
    (b"\"\"", &[(Text, 0, 2)]),
    (b"\"a ~'%(*\"b", &[(Text, 0, 9), (Name, 9, 1)]),
    (
        b"()[],;:.~",
        &[
            (Symbol, 0, 1),
            (Symbol, 1, 1),
            (Symbol, 2, 1),
            (Symbol, 3, 1),
            (Symbol, 4, 1),
            (Symbol, 5, 1),
            (Symbol, 6, 1),
            (Symbol, 7, 1),
            (Symbol, 8, 1),
        ],
    ),
    (
        b"/\\\\/=>->",
        &[
            (Symbol, 0, 2),
            (Symbol, 2, 2),
            (Symbol, 4, 2),
            (Symbol, 6, 2),
        ],
    ),
    (b"% all of it \xFF", &[]),
    (b"a//b\nc", &[(Name, 0, 1), (Name, 5, 1)]),
    (b"a%b\r\nc", &[(Name, 0, 1), (Name, 5, 1)]),
    (b"(**)x", &[(Name, 4, 1)]),
    (b"(* (* *)x", &[(Name, 8, 1)]),
    (b"(*)*)x", &[(Name, 5, 1)]),
    (b"((**)", &[(Symbol, 0, 1)]),
];

const FAULTS: &[(&'static [u8], u32)] = &[
    (b"a 18446744073709551616", 2),
    (b"099999999999999999999", 0),
    (b"a \"open", 2),
    (b"\"a\tb\"", 0),
    (b"\"a\n\"", 0),
    (b"\"a\x7F\"", 0),
    (b"x (*)", 2),
    (b"x (* *", 2),
    (b"a /", 2),
    (b"a / b", 2),
    (b"=", 0),
    (b"-", 0),
    (b"a >", 2),
    (b"( *)", 2),
    (b"\\", 0),
    (b"_a", 0),
    (b"'", 0),
    (b"a\0", 1),
    (b"a\xC3\xA9", 1),
];

fn are_tokens(read: &Tokens<'_>, want: &[(TokenKind, u32, usize)]) -> bool {
    for (k, (kind, at, len)) in want.iter().enumerate() {
        if k >= read.len() {
            return false;
        }
        let token = read.get(k);
        if token.kind != *kind || token.at.offset != *at || token.piece.len() != *len {
            return false;
        }
    }
    read.len() == want.len()
}

/// Whether the text is cut into these tokens.
fn is_cut_so(alloc: Global, text: &[u8], want: &[(TokenKind, u32, usize)]) -> bool {
    if text.len() > 100 {
        return false;
    }
    match tokens(alloc, text) {
        Ok(read) => are_tokens(&read, want),
        Err(_) => false,
    }
}

#[test]
fn a_text_is_cut_into_the_tokens_of_the_grammar(rt: HostRuntime) {
    for (text, want) in READ {
        assert!(rt; is_cut_so(rt.alloc(), text, want), "{text:?}");
    }
}

/// Whether the text has its fault there.
fn is_refused_at(alloc: Global, text: &[u8], at: u32) -> bool {
    if text.len() > 100 {
        return false;
    }
    match tokens(alloc, text) {
        Ok(_) => false,
        Err(fault) => fault == LexFault::Lexical(Place { offset: at }),
    }
}

#[test]
fn a_fault_stands_where_the_piece_begins_that_cannot_be_completed(rt: HostRuntime) {
    for (text, at) in FAULTS {
        assert!(rt; is_refused_at(rt.alloc(), text, *at), "{text:?}");
    }
}
