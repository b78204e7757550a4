ghost use Rattle.std.specs.Prelude.{◌≡◌, ◌↔◌, ◌∷◌, All, false, true, Some, map, IsTrue, MatchOption};
ghost use Rattle.pc_common.specs.World.{Node};
ghost use Rattle.pc_ground.specs.Keys.{key_node};
ghost use Rattle.lifted_facts.specs.PlainFacts.{plain_fact, one_node, one_edge, IsProper};
ghost use Rattle.lifted_facts.specs.Lifted.{HasFact, IsEdge, Follows, Asserts, IsCycle, IsPath, IsAbsent, IsFalsity, Closes};
ghost use Rattle.lifted_facts.specs.Steps.{plain_leaf};

use super::fact::Fact;
use super::falsity::is_false;
use super::named::fact_at;
use super::step::FactLeaf;
use pc_case::Case;
use pc_ground::NodeKey;

/// Whether two keys are of one node.
fn is_same(one: NodeKey, other: NodeKey) -> bool
    ensures { IsTrue result ↔ (key_node one ≡ key_node other) }
{
    one == other
}

/// The ends of the edge that a fact is, under this sign; None where it is no such edge.
fn edge_of(fact: &Fact<'_>, plus: bool) -> Option<(NodeKey, NodeKey)>
    ensures { MatchOption result ((x y : Node) → plain_fact fact.now ≡ one_edge plus (Some x) (Some y) → ⊥)
        (λ ends. plain_fact fact.now ≡ one_edge plus (Some (key_node ends.0)) (Some (key_node ends.1))) }
{
    match fact {
        Fact::Edge {
            plus: sign,
            from,
            to,
        } => {
            if *sign == plus {
                Some((*from, *to))
            } else {
                None
            }
        }
        _ => None,
    }
}

/// The ends of the edge that is the fact of this number, under this sign; None where that is no such edge.
fn edge_at(facts: &[Fact<'_>], plus: bool, number: u64) -> Option<(NodeKey, NodeKey)>
    ensures { MatchOption result ((x y : Node) → IsEdge (map plain_fact facts.now) plus number x y → ⊥)
        (λ ends. IsEdge (map plain_fact facts.now) plus number (key_node ends.0) (key_node ends.1)) }
{
    match fact_at(facts, number) {
        Some(fact) => edge_of(fact, plus),
        None => None,
    }
}

/// Where the edges of these numbers lead from a node, each from where the one before it ends; None where one does
/// not.
fn end_of(facts: &[Fact<'_>], from: NodeKey, edges: &[u64]) -> Option<NodeKey>
    ensures { MatchOption result ((y : Node) → Follows (map plain_fact facts.now) (key_node from) edges.now y → ⊥)
        (λ y. Follows (map plain_fact facts.now) (key_node from) edges.now (key_node y)) }
{
    let mut at = from;
    for number in edges {
        let (start, end) = edge_at(facts, true, *number)?;
        if !is_same(start, at) {
            return None;
        }
        at = end;
    }
    Some(at)
}

/// Where the edges of these numbers begin and where they lead; None where they are not joined.
fn ends_of(facts: &[Fact<'_>], first: u64, more: &[u64]) -> Option<(NodeKey, NodeKey)>
    ensures { MatchOption result ((x y : Node) → Follows (map plain_fact facts.now) x (first ∷ more.now) y → ⊥)
        (λ ends. Follows (map plain_fact facts.now) (key_node ends.0) (first ∷ more.now) (key_node ends.1)) }
{
    let (from, to) = edge_at(facts, true, first)?;
    Some((from, end_of(facts, to, more)?))
}

/// Whether the edges are joined, and end where they begin.
fn is_cycle(facts: &[Fact<'_>], first: u64, more: &[u64]) -> bool
    ensures { IsTrue result ↔ IsCycle (map plain_fact facts.now) first more.now }
{
    match ends_of(facts, first, more) {
        Some((from, to)) => is_same(from, to),
        None => false,
    }
}

/// Whether the edges are joined, and the edge from their start to their end is denied.
fn is_path(facts: &[Fact<'_>], first: u64, more: &[u64], denial: u64) -> bool
    ensures { IsTrue result ↔ IsPath (map plain_fact facts.now) first more.now denial }
{
    let Some((from, to)) = ends_of(facts, first, more) else {
        return false;
    };
    let Some((start, end)) = edge_at(facts, false, denial) else {
        return false;
    };
    is_same(from, start) && is_same(to, end)
}

/// The node that a fact denies; None where it denies none.
fn denied_of(fact: &Fact<'_>) -> Option<NodeKey>
    ensures { MatchOption result ((a : Node) → plain_fact fact.now ≡ one_node false (Some a) → ⊥)
        (λ a. plain_fact fact.now ≡ one_node false (Some (key_node a))) }
{
    match fact {
        Fact::Node { plus, node } => { if *plus { None } else { Some(*node) } }
        _ => None,
    }
}

/// The node that is the denied one of this number; None where that is none.
fn denied_at(facts: &[Fact<'_>], number: u64) -> Option<NodeKey>
    ensures { MatchOption result ((a : Node) → HasFact (map plain_fact facts.now) number (one_node false (Some a)) → ⊥)
        (λ a. HasFact (map plain_fact facts.now) number (one_node false (Some (key_node a)))) }
{
    match fact_at(facts, number) {
        Some(fact) => denied_of(fact),
        None => None,
    }
}

/// Whether the fact asserts the node, by itself or as an end of an edge.
fn asserts(fact: &Fact<'_>, a: NodeKey) -> bool
    ensures { IsTrue result ↔ Asserts (plain_fact fact.now) (key_node a) }
{
    match fact {
        Fact::Node { plus, node } => *plus && is_same(*node, a),
        Fact::Edge { plus, from, to } => *plus && (is_same(*from, a) || is_same(*to, a)),
        Fact::Said(_) => false,
    }
}

/// Whether the one fact denies a node that the other asserts.
fn is_absent(facts: &[Fact<'_>], denial: u64, number: u64) -> bool
    ensures { IsTrue result ↔ IsAbsent (map plain_fact facts.now) denial number }
{
    let Some(a) = denied_at(facts, denial) else {
        return false;
    };
    match fact_at(facts, number) {
        Some(fact) => asserts(fact, a),
        None => false,
    }
}

/// Whether the fact of this number holds in no world.
fn is_falsity(case: &Case, facts: &[Fact<'_>], number: u64) -> bool
    requires { All (IsProper case.now) facts.now }
    ensures { IsTrue result ↔ IsFalsity case.now (map plain_fact facts.now) number }
{
    match fact_at(facts, number) {
        Some(fact) => is_false(case, fact),
        None => false,
    }
}

/// Whether the leaf closes the branch of these facts. Takes no memory.
pub(crate) fn closes(case: &Case, facts: &[Fact<'_>], leaf: FactLeaf<'_>) -> bool
    requires { All (IsProper case.now) facts.now }
    ensures { IsTrue result ↔ Closes case.now (map plain_fact facts.now) (plain_leaf leaf.entry) }
{
    match leaf {
        FactLeaf::False(number) => is_falsity(case, facts, number),
        FactLeaf::Cycle(first, more) => is_cycle(facts, first, more),
        FactLeaf::Path(first, more, denial) => is_path(facts, first, more, denial),
        FactLeaf::Absent(denial, number) => is_absent(facts, denial, number),
    }
}
