//! Texts that are made to break the top call: models and tests at their limits and one past them, and certificates that
//! are cut or long.
mod certificates;
mod pieces;
mod texts;
