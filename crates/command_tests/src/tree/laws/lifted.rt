//! The laws of lifted refutations.
use lifted_facts::{lifted_is_sound, one_list_is_left, runs_are_joined};

/// A law does nothing, and can be called by anyone who wants what it says.
#[test]
fn each_law_of_lifted_refutations_can_be_called(_rt: HostRuntime) {
    lifted_is_sound();
    runs_are_joined();
    one_list_is_left();
}
