/// The greatest number of a core, in a model and in a test.
pub const MAX_CORE: u64 = 63;

/// How many micro-ops a test may have.
pub const MAX_OPS: usize = 64;

/// How many nodes a test may have: each micro-op at each of 64 stages of each of 64 cores.
pub const MAX_NODES: usize = 262_144;

/// How many bytes a certificate may have.
pub const MAX_CERTIFICATE: usize = 67_108_864;
