//! The laws of limits, of expansion and of closing.
use macro_expand::{
    expansion_keeps_truth, expansions_are_renamed, expansions_satisfy, renaming_keeps_items,
    renaming_keeps_macro_faults, renaming_keeps_size_faults, renaming_keeps_stage_faults,
};
use scope_check::{
    closing_keeps_truth, renaming_keeps_closings, renaming_keeps_name_faults,
    renaming_keeps_query_faults,
};

/// A law does nothing, and can be called by anyone who wants what it says.
#[test]
fn each_law_of_models_can_be_called(_rt: HostRuntime) {
    pc_common::limits_are();
    pc_syntax::limits_are();
    expansion_keeps_truth();
    expansions_satisfy();
    expansions_are_renamed();
    renaming_keeps_macro_faults();
    renaming_keeps_size_faults();
    renaming_keeps_stage_faults();
    renaming_keeps_items();
    closing_keeps_truth();
    renaming_keeps_closings();
    renaming_keeps_name_faults();
    renaming_keeps_query_faults();
}
