//! Models: what a model says, and its first fault, or that of a model and a test.
mod files;
mod long_names;
mod macros;
mod names;
mod texts;
mod whole;
