// Laws of refutations. The functions do nothing: their contracts are the laws.
ghost use Rattle.tree_check.specs.Laws.{RunsAreJoined, OneListIsLeft};

/// Steps lead over a first part of them and the rest of them, and in no other way.
pub fn runs_are_joined()
    ensures { RunsAreJoined }
{}

/// The same steps from the same branches lead to one list of branches.
pub fn one_list_is_left()
    ensures { OneListIsLeft }
{}
