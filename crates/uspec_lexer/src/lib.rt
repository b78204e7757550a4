//! Bytes to tokens, over a lexical grammar: that of models and tests stands here.
//!
//! Clause: `tokens` returns the tokens that bytes spell, or the first place where none begins (`ok`, `err`).
//!
//! ```rust
//! use uspec_lexer::{is_name, tokens};
//!
//! let tokens = tokens(alloc, b"IsAnyRead i // a read")?;
//! assert!(rt; tokens.len() == 2 && tokens.get(1).piece == b"i".as_slice());
//! assert!(rt; is_name(b"x1") && !is_name(b"1x"));
//! ```
//!
//! A text is cut into pieces, each the longest that begins at its place. In models and tests, from the start on:
//!
//! | piece | form |
//! |---|---|
//! | blank | space, tab, CR or LF |
//! | comment | `%` or `//` up to the next LF or the end; `(*` up to the first `*)` after these two bytes |
//! | name | an ASCII letter, then letters, digits, `_` and `'` |
//! | number | ASCII digits of a value up to 18446744073709551615, with any leading zeros |
//! | text | `"`, bytes 0x20 to 0x7E other than `"`, `"` |
//! | symbol | one of `( ) [ ] , ; : . ~ /\ \/ => ->` |
//!
//! Any bytes stand inside a comment, and comments don't nest. `(*` always begins a comment. The tokens
//! are the pieces that are neither blanks nor comments. Where no piece begins, or the one that begins
//! can't be completed, stands the text's lexical fault.
//!
//! Another [`LexicalGrammar`] has comments up to the line's end, texts, symbols and bytes of names of its own:
//! `specs/Table.antt` has what it chooses, `specs/Piece.antt` the pieces, and `specs/Models.antt` the choice of models
//! and tests. A grammar with one byte in view after the first needs no law: the two say what piece begins.
//!
//! `specs/Spells.antt` says this of whole texts, as a relation. The laws in `laws.rt` say of each lexical grammar that
//! each text spells tokens or has a fault, one at most of each, and never both, and that tokens are pieces in order.
#![tactic(auto)]

mod class;
mod fault;
mod grammar;
mod laws;
mod lex;
mod list;
mod models;
mod scan;
mod token;

pub use fault::LexFault;
pub use grammar::{LexicalGrammar, Opening};
pub use laws::{no_fault, one_fault, one_list, tokens_in_order, tokens_or_fault};
pub use lex::{tokens, tokens_from};
pub use list::Tokens;
pub use models::{Models, is_name};
pub use scan::byte_or_nul;
pub use token::{FromToken, Token, TokenKind, is_spelled};
