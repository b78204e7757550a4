/// The greatest number of a stage.
pub const MAX_STAGE: u64 = 63;

/// How many variables may be in scope at a place of a formula.
pub const MAX_VARIABLES: usize = 32;

/// How high an axiom may be, with its macros expanded.
pub const MAX_HEIGHT: u64 = 512;

/// How large all axioms of a model may be together, with their macros expanded.
pub const MAX_SIZE: u64 = 1_000_000;
