// Laws of lifted refutations. The functions do nothing: their contracts are the laws.
ghost use Rattle.lifted_facts.specs.Laws.{LiftedIsSound, RunsAreJoined, OneListIsLeft};

/// Axioms that have a lifted refutation are together true in no world.
pub fn lifted_is_sound()
    ensures { LiftedIsSound }
{}

/// Steps lead over a first part of them and the rest of them, and in no other way.
pub fn runs_are_joined()
    ensures { RunsAreJoined }
{}

/// The same steps from the same branches lead to one list of branches.
pub fn one_list_is_left()
    ensures { OneListIsLeft }
{}
