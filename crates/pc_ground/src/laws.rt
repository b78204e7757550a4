// Laws of the definitions. The functions do nothing: their contracts are the laws.
ghost use Rattle.pc_ground.specs.Laws.{TreeSaysModel, TreeSaysClosed, ExpansionKeepsTree, ClosingKeepsTree, NormalIsFolded, NormalOfSimplified, NodesAreNamed, TruthIsOfLiterals, CutKeepsTruth, CutIsWorld, RefutationIsSound, OneHasNoSign, NegationTurnsTruth, NegationTurnsRows, NumberedListsNodes, RowsSpellOneTree, WalkIsAsserted};

/// A world satisfies a model exactly where the model's ground tree is true in it.
#[tactic(auto, using(crate::proofs::UnfoldedTruth::ground_tree_true))]
pub fn tree_says_model()
    ensures { TreeSaysModel }
{}

/// Closed axioms are true in a world exactly where their ground tree is.
#[tactic(auto, using(crate::proofs::UnfoldedTruth::closed_ground_tree_true))]
pub fn tree_says_closed()
    ensures { TreeSaysClosed }
{}

/// Expansion and closing keep the ground tree of a model without name faults.
#[tactic(auto, using(crate::proofs::KeptTrees::expanded_tree, crate::proofs::KeptTrees::closed_tree))]
pub fn tree_is_kept()
    ensures expansion { ExpansionKeepsTree }
    ensures closing { ClosingKeepsTree }
{}

/// A constant is left in a normal form only where it is the whole tree.
#[tactic(auto, using(crate::proofs::NormalForms::normal_folded))]
pub fn normal_is_folded()
    ensures { NormalIsFolded }
{}

/// Folding constants first changes no normal form.
#[tactic(auto, using(crate::proofs::NormalForms::normal_simplified))]
pub fn normal_of_simplified()
    ensures { NormalOfSimplified }
{}

/// Each node of closed axioms' ground tree is of the test, and of the stages that the axioms name.
#[tactic(auto, using(crate::proofs::TreeNodes::nodes_are_of))]
pub fn nodes_are_named()
    ensures { NodesAreNamed }
{}

/// A tree's truth in a world depends only on the nodes of its literals.
#[tactic(auto, using(crate::proofs::CutTruth::truth_of_literals, crate::proofs::CutTruth::cut_keeps))]
pub fn truth_is_of_literals()
    ensures agree { TruthIsOfLiterals }
    ensures cut { CutKeepsTruth }
{}

/// A world cut down to some nodes is a world.
#[tactic(auto, using(crate::proofs::CutTruth::cut_world))]
pub fn cut_is_world()
    ensures { CutIsWorld }
{}

/// A tree that has a refutation, of either version, is true in no world.
#[tactic(auto, using(crate::proofs::Refuted::refutation_sound))]
pub fn refutation_is_sound()
    ensures { RefutationIsSound }
{}

/// In version 1 no position of an open branch has a sign.
pub fn one_has_no_sign()
    ensures { OneHasNoSign }
{}

/// The negation of a tree is true exactly where the tree is not, and its rows are the tree's rows turned.
#[tactic(auto, using(crate::proofs::Turned::negation_true, crate::proofs::Turned::rows_turned))]
pub fn negation_turns()
    ensures truth { NegationTurnsTruth }
    ensures rows { NegationTurnsRows }
{}

/// The numbered nodes of a tree are the nodes of its literals, each once.
#[tactic(auto, using(crate::proofs::FirstSeen::numbered_lists))]
pub fn numbered_lists_nodes()
    ensures { NumberedListsNodes }
{}

/// No rows spell two trees.
#[tactic(auto, using(crate::proofs::FlatRows::rows_injective))]
pub fn rows_spell_one_tree()
    ensures { RowsSpellOneTree }
{}

/// The walk over the rows of a side comes to the positions that the side asserts, and to no others.
#[tactic(auto, using(crate::proofs::Walks::walk_side))]
pub fn walk_is_asserted()
    ensures { WalkIsAsserted }
{}
