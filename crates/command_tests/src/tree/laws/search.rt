//! The laws of literals that the search has asserted.
use order_graph::{clashes_refute_consistency, consistent_literals_generate_a_world};
use solver::consistent_literals_have_a_world;

/// A law does nothing, and can be called by anyone who wants what it says.
#[test]
fn each_law_of_literals_can_be_called(_rt: HostRuntime) {
    consistent_literals_generate_a_world();
    clashes_refute_consistency();
    consistent_literals_have_a_world();
}
