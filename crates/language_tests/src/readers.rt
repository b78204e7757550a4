//! What reads a test, and what is told of its micro-ops.
mod cases;
mod predicates;
mod type_names;
