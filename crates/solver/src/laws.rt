// A law of the definitions. The function does nothing: its contract is the law.
ghost use Rattle.solver.specs.Laws.{ConsistentHaveWorld};

/// Consistent literals have a world: the one that their asserted nodes and edges generate is a world, and
/// each of the literals is true in it.
#[tactic(auto, using(crate::proofs::ConsistentWorld::consistent_world))]
pub fn consistent_literals_have_a_world()
    ensures { ConsistentHaveWorld }
{}
