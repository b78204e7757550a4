// Laws of the definitions that `close` and `close_query` are stated by. The functions do nothing: their contracts are
// the laws.
ghost use Rattle.scope_check.specs.Laws.{ClosingKeepsTruth, RenamingKeepsClosings, RenamingKeepsNameFaults, RenamingKeepsFirstNameFaults, RenamingKeepsQueryFaults, RenamingKeepsAsked};
ghost use Rattle.scope_check.specs.QueryFaults.{QueryFaultsAreNameFaults};

/// Closing keeps truth, in every case, world and environment that fits the scope.
#[tactic(auto, using(crate::proofs::ClosingOf::closing_keeps))]
pub fn closing_keeps_truth()
    ensures { ClosingKeepsTruth }
{}

/// The first fault that is told of a formula which is asked of a model is its first name fault: only the file is added.
#[tactic(auto, using(crate::proofs::FiledFaults::query_faults))]
pub fn query_faults_are_name_faults()
    ensures { QueryFaultsAreNameFaults }
{}

/// A formula with other names, of which two are one exactly where they were, is closed to what it was closed to.
#[tactic(auto, using(crate::proofs::RenamedClosings::closings_kept))]
pub fn renaming_keeps_closings()
    ensures { RenamingKeepsClosings }
{}

/// A formula with other names has the first name fault that it had, and a model with other names has its own.
#[tactic(auto, using(crate::proofs::RenamedFaults::name_faults_kept))]
pub fn renaming_keeps_name_faults()
    ensures formulas { RenamingKeepsNameFaults }
    ensures models { RenamingKeepsFirstNameFaults }
{}

/// A formula that is asked of a model has, with other names, the first fault that it had, in the file in which it was;
/// and what a denial denies has the other names too.
#[tactic(auto, using(crate::proofs::RenamedFaults::query_faults_kept, crate::proofs::RenamedFaults::asked_renamed))]
pub fn renaming_keeps_query_faults()
    ensures faults { RenamingKeepsQueryFaults }
    ensures denied { RenamingKeepsAsked }
{}
