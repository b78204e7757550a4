//! Recognises the texts of a context-free grammar with one token in view, and names the first fault
//! of every other list of tokens. It takes the classes of the tokens and a grammar, an impl of
//! [`Grammar`]: what stands after a token where a part begins with it, which parts may have no
//! token, and which tokens stand too deep. It gives `None` for a text with no token too deep, else
//! the one first [`Fault`]: the token at which no text goes on, or the token that is too deep.
//!
//! Clause: `first_fault` returns None exactly for a text of the grammar that is not too deep, and otherwise its first
//! fault (its clause).
//!
//! ```rust
//! // `Phrase` is the grammar of lists in brackets, over the tokens `Bracket`
//! let classes = [Bracket::Open, Bracket::Word, Bracket::Close];
//! assert!(rt; first_fault(alloc, Phrase::Items, &classes)?.is_none());
//! assert!(rt; first_fault(alloc, Phrase::Items, &classes[..2])? == Some(Fault::Syntax(2)));
//! ```
//!
//! The grammar is LL(1) (Lewis and Stearns, Syntax-Directed Transduction, 1968; Knuth, Top-Down Syntax
//! Analysis, 1971). Such a recogniser has the viable-prefix property (Aho, Sethi and Ullman,
//! Compilers, 1986): it reads on exactly as long as some text begins with the tokens read.
//! The contract of [`first_fault`] is that property, both ways, over the grammar's own texts;
//! `proofs/` carries it to any other statement of the same texts (`DerivesLaws`, `Faults`), and from classes to tokens
//! (`Shallow`, where no token can be too deep). That each list
//! of tokens has such an answer, and one, are laws in `laws.rt`.
#![tactic(auto)]

mod fault;
mod grammar;
mod laws;

pub use fault::{Fault, fault_place, first_fault};
pub use grammar::{Grammar, Prediction, Symbol, TokenClass, push_body};
pub use laws::{one_answer, some_answer, viable_prefixes};
