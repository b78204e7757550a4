//! Macros: the first fault of a model's stages, and that of its macros and its sizes; its axioms with each macro in its
//! place; and where a name of it is long, the model with a number in place of each of its names.
//!
//! Clause: `expand` returns the axioms with their macros expanded, or the first fault of macros and sizes (`ok`,
//! `err`). Where a name is long, and nowhere else, `with_short_names` returns the model with other names (`long`); one
//! that changes has eight bytes then, and two are one exactly where they were (`renamed`, `short`).
//!
//! `stage_faults` judges the stages. `expand` judges the macros and the expansions in the text's order, measures each
//! macro's body once, judges the sizes, and only then expands: in place of each `ExpandMacro` stands a binding of the
//! macro's parameters over a copy of its body, which shares the names and lists of the text. The laws say that
//! expansion keeps truth, and that names matter only by which are equal: a renamed model has the renamed expansions,
//! and the same faults of stages, macros and sizes. `specs/` of `pc_syntax` has the faults (`StageFaults`,
//! `MacroFaults`, `Sizes`), `expansion_of` and `Renaming`.
//!
//! ```rust
//! use uspec_lexer::tokens;
//! use uspec_parser::parse_model;
//!
//! let text = b"DefineMacro \"m\": ~True. Axiom \"x\": ExpandMacro m.";
//! let model = parse_model(alloc, &tokens(alloc, text)?)?;
//! assert!(rt; stage_faults(&model).is_none());
//! let axioms = expand(alloc, &model)?;
//! assert!(rt; axioms.len() == 1 && matches!(axioms[0].body, Formula::Bind { .. }));
//!
//! let text = b"DefineMacro \"a_name_that_has_a_few_more_bytes_than_32\": ~True.";
//! let model = parse_model(alloc, &tokens(alloc, text)?)?;
//! if let Some(short) = with_short_names(alloc, &model)? {
//!     match &short.items.as_slice()[0] {
//!         Item::Macro { name, .. } => assert!(rt; name.name.as_slice() == [0, 0, 0, 0, 0, 0, 0, 0]),
//!         Item::Axiom { .. } => {}
//!     }
//! }
//! ```
#![tactic(auto)]

mod calls;
mod connective;
mod expansion;
mod fault;
mod items;
mod laws;
mod macros;
mod measure;
mod parameter_names;
mod parameters;
mod quantifier;
mod short_names;
mod sizes;
mod stages;
mod top;

pub use fault::MacroFault;
pub use laws::{
    expansion_keeps_truth, expansions_are_renamed, expansions_satisfy, renaming_keeps_items,
    renaming_keeps_macro_faults, renaming_keeps_size_faults, renaming_keeps_stage_faults,
};
pub use short_names::with_short_names;
pub use stages::stage_faults;
pub use top::expand;
