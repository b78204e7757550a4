//! herd's X86 listings to cases: a read has the value that the condition gives its register.
//!
//! Clause: `read_x86` returns the case of a listing, or its first fault (`ok`, `err`).
//!
//! ```text
//! body = "{" [init (";" init)* [";"]] "}" head ";" (line ";")* cond
//! init = loc "=" NUMBER          loc = NAME | "[" NAME "]"
//! head = NAME ("|" NAME)*        line = cell ("|" cell)*
//! cell = (nothing) | MFENCE | MOV "[" NAME "]" "," "$" NUMBER
//!      | MOV NAME "," "[" NAME "]"
//! cond = ["~"] exists (conj | "(" conj ")")
//! conj = eq ("/\" eq)*           eq = NUMBER ":" NAME "=" NUMBER | loc "=" NUMBER
//! ```
//!
//! The body stands after a header, which is read by lines: `X86`, spaces, a name without blanks, blanks; then lines
//! that are blank, begin with `"` or hold `=`. The body begins with the first line whose first nonblank byte is `{`,
//! also where that line holds `=`. From there on the text is cut into pieces, as in `uspec_lexer`, but for these:
//!
//! | piece | form |
//! |---|---|
//! | comment | `(*` up to the first `*)` after these two bytes, with any bytes inside; comments don't nest |
//! | name | an ASCII letter, then letters, digits and `_` |
//! | text | none |
//! | symbol | one of `{ } ; | [ ] , $ : = ( ) ~ /\` |
//!
//! Words are names by their spelling and none is reserved: a cell that begins with `MOV` or `MFENCE` is an instruction,
//! and what stands after the lines begins with `exists` or `~`.
//!
//! Column k is thread k on core k. Instructions are numbered column by column, from top to bottom; a load reads
//! the value that the condition gives its register. Location k, as first named, is the page (k, 0).
//!
//! A file is judged in passes, each over what the one before has found to be well-formed: the header, the tokens
//! (`uspec_lexer`, over the table of `listings`), the grammar (`ll_grammar`, over the table of `phrase`), and what the
//! text says from its start to its end (`spot` gives it item by item, `said` judges and keeps it). So a fault of
//! content is never named before one of syntax.
//!
//! `specs/Header.antt` has the header, `specs/Tokens.antt` the table of the pieces, `specs/Syntax.antt` the
//! productions, `specs/Items.antt` what a listing says, `specs/Faults.antt` the faults of content, `specs/Cases.antt`
//! the case and `specs/Answer.antt` the whole. The laws in `laws.rt` say that a text has a case or a first fault, one
//! at most of each, and not both.
//!
//! ```rust
//! let case = read_x86(alloc, b"X86 W
//! { }
//!  P0         ;
//!  MOV [x],$1 ;
//! exists (x=1)
//! ")?;
//! let x = Address::Page { tag: 0, index: 0 };
//! assert!(rt; case.ops() == 1 && case.final_of(x) == Some(Value::Number(1)));
//! ```
#![tactic(auto)]

mod case_of;
mod content_fault;
mod fault;
mod faults;
mod header;
mod item;
mod laws;
mod listings;
mod locations;
mod phrase;
mod read;
mod said;
mod spot;
mod syntax;
mod terminal;
mod values;

pub use fault::X86Fault;
pub use header::body_of;
pub use laws::{case_or_fault, no_fault, one_case, one_fault};
pub use listings::Listings;
pub use read::read_x86;
