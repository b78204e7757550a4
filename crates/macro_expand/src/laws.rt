// Laws of the definitions that `expand` is stated by. The functions do nothing: their contracts are the laws.
ghost use Rattle.macro_expand.specs.Laws.{ExpansionKeepsTruth, ExpansionsSatisfy};
ghost use Rattle.macro_expand.specs.Laws.{RenamingCommutesWithExpansion, RenamingKeepsItems};
ghost use Rattle.macro_expand.specs.Laws.{RenamingKeepsMacroFaults, RenamingKeepsSizeFaults, RenamingKeepsStageFaults};

/// Expansion keeps truth, in every case, world and environment. So no name of a macro's body is captured.
#[tactic(auto, using(crate::proofs::Expansions::expansion_keeps))]
pub fn expansion_keeps_truth()
    ensures { ExpansionKeepsTruth }
{}

/// A world satisfies a model exactly where the axioms that `expand` gives are true in it.
#[tactic(auto, using(crate::proofs::Expansions::expansions_satisfy))]
pub fn expansions_satisfy()
    ensures { ExpansionsSatisfy }
{}

/// Names matter to expansion only by which are equal: a renamed formula expands to the renamed expansion.
#[tactic(auto, using(crate::proofs::RenamedExpansions::expansion_renamed))]
pub fn expansions_are_renamed()
    ensures { RenamingCommutesWithExpansion }
{}

/// A renamed model has the same first macro fault, at the same place.
pub fn renaming_keeps_macro_faults()
    ensures { RenamingKeepsMacroFaults }
{}

/// A renamed model has the same first size fault, at the same place.
pub fn renaming_keeps_size_faults()
    ensures { RenamingKeepsSizeFaults }
{}

/// A renamed model has the same first stage fault, at the same place.
#[tactic(auto, using(crate::proofs::RenamedFaults::stage_faults_renamed))]
pub fn renaming_keeps_stage_faults()
    ensures { RenamingKeepsStageFaults }
{}

/// The axioms and macros of a renamed model are the renamed ones, in the same order.
pub fn renaming_keeps_items()
    ensures { RenamingKeepsItems }
{}
