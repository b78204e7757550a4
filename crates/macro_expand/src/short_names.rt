//! Short names: where a name of a model is long, the model with a number in place of each of its names.
//!
//! A model may have names of 400,000 bytes, and a macro's body may be copied 100,000 times. Each look-up of a name in
//! such a copy costs the name's length. So before macros are expanded, `with_short_names` lists the names of the model.
//! If one of them is long, it copies the model with the number of each name, in eight bytes, in the name's place. Two
//! names of the copy are one exactly where they are one in the model, and places stay as they are. The names of
//! predicates and the plain names that predicates take keep their bytes, since these are read and not only compared.
mod formulas;
mod listed_names;
mod listing;
mod model;
mod names;
mod predicates;
mod terms;

pub use model::with_short_names;
