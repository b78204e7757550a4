//! Tests of what reads models, tests and listings through their public calls: texts to tokens, formulas, models and cases,
//! what is told of them, and the first fault of each.
//!
//! They stand in a crate of their own, since a crate with tests is proved twice.
#![tactic(auto)]

#[cfg(test)]
mod formula_texts;
#[cfg(test)]
mod listings;
#[cfg(test)]
mod models;
#[cfg(test)]
mod parsers;
#[cfg(test)]
mod readers;
