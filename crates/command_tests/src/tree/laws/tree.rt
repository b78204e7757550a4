//! The laws of ground trees.
use grounder::a_constant_is_the_whole;
use pc_ground::{
    cut_is_world, negation_turns, nodes_are_named, normal_is_folded, normal_of_simplified,
    numbered_lists_nodes, one_has_no_sign, refutation_is_sound, rows_spell_one_tree, tree_is_kept,
    tree_says_closed, tree_says_model, truth_is_of_literals, walk_is_asserted,
};

/// A law does nothing, and can be called by anyone who wants what it says.
#[test]
fn each_law_of_ground_trees_can_be_called(_rt: HostRuntime) {
    tree_says_model();
    tree_says_closed();
    tree_is_kept();
    normal_is_folded();
    normal_of_simplified();
    a_constant_is_the_whole();
    nodes_are_named();
    truth_is_of_literals();
    cut_is_world();
    numbered_lists_nodes();
    rows_spell_one_tree();
    refutation_is_sound();
    one_has_no_sign();
    negation_turns();
    walk_is_asserted();
}
