//! Tokens to the written model: [`parse_model`] reads a model file, [`parse_formula`] one formula. Both give
//! the tree that the tokens derive, or the first fault of the tokens, a [`ParseFault`].
//!
//! Clause: `parse_model` returns the tree that tokens derive, or their first fault (`tree`, `fault`).
//!
//! ```text
//! model  = item*
//! item   = StageName NUMBER NTEXT "."
//!        | Axiom TEXT ":" f "."
//!        | DefineMacro NTEXT NTEXT* ":" f "."       name, then parameters
//! f      = (u op)* (u | w)                          a list of operands
//! op     = "/\" | "\/" | "=>"
//! u      = atom | "(" f ")" | "~" u
//! w      = q f | "~" w
//! q      = (forall | exists) (microop | microops | core | cores) NTEXT ","
//! atom   = (AddEdge | EdgeExists) edge | NodeExists node
//!        | (AddEdges | EdgesExist) list of edge | NodesExist list of node
//!        | ExpandMacro NAME arg* | NAME arg*
//! arg    = NAME | NUMBER
//! list   = "[" "]" | "[" x (";" x)* [";"] "]"
//! edge   = "(" node "," node [ "," TEXT [ "," TEXT ] ] ")"
//! node   = "(" NAME "," loc ")"
//! loc    = NAME | "(" arg "," NAME ")"
//! ```
//!
//! The words of the grammar are reserved: NAME is any other name, NTEXT a text whose content is a NAME,
//! TEXT any text. A list of operands is split at its first `=>`, if it has none at its first `\/`, if it
//! has none at its first `/\`, and both sides likewise. The tree keeps no brackets, labels, colours or
//! axiom names.
//!
//! An opener is a `~`, a formula's `(`, a quantifier or a connective. It is open until its operand ends,
//! until the `)`, until the body ends, or until the list of operands ends or has a looser connective. At
//! most [`MAX_OPENERS`] may be open at once, which bounds how deep calls nest.
//!
//! First the recogniser of `ll_grammar` goes over the terminals and finds the first fault, if there is one.
//! Then a plain descent builds the tree of tokens that are known to be well-formed.
//!
//! `specs/Syntax.antt` states the grammar as data, with what each production spells and means, `specs/Marks.antt`
//! which tokens stand too deep; the clauses of the two calls are over these. The laws in `laws.rt` say that
//! no tokens have two trees, and that all have an answer.
//!
//! ```rust
//! use uspec_lexer::tokens;
//!
//! let whole = tokens(alloc, b"~True")?;
//! assert!(rt; matches!(parse_formula(alloc, &whole)?, Formula::Not(_)));
//! let cut = tokens(alloc, b"~")?;
//! assert!(rt; parse_formula(alloc, &cut).err() == Some(ParseFault::Syntax(1)));
//! ```
#![tactic(auto)]

mod cursor;
mod fault;
mod formulas;
mod items;
mod laws;
mod level;
mod operands;
mod parse;
mod phrase;
mod terminal;
mod terms;

pub use fault::ParseFault;
pub use laws::{
    formula_texts, limits_are, model_texts, one_answer, one_formula_tree, one_model_tree,
    some_answer, split_of_operands,
};
pub use level::MAX_OPENERS;
pub use parse::{parse_formula, parse_model};
