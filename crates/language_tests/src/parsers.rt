//! The readers of the model language: texts to tokens, and tokens to formulas, models or the first fault of a grammar.
mod brackets;
mod formulas;
mod pieces;
