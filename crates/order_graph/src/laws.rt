ghost use Rattle.order_graph.specs.Law.{ConsistentGenerate, ClashesRefute};

/// The nodes that consistent literals assert, in the order of the chains of their edges, are a world where
/// each literal is true.
pub fn consistent_literals_generate_a_world()
    ensures { ConsistentGenerate }
{}

/// Literals with a clash are not consistent.
pub fn clashes_refute_consistency()
    ensures { ClashesRefute }
{}
