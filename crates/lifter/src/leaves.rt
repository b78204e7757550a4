ghost use Rattle.std.specs.Prelude.{◌∷◌, ◌++◌, [], IfOk, OnOk, map};
ghost use Rattle.pc_common.specs.Elements.{In};
ghost use Rattle.pc_ground.specs.Keys.{key_node};
ghost use Rattle.refutation.specs.BranchFacts.{plain_branch_fact, present, no_node};
ghost use Rattle.lifter.specs.KnownFacts.{HasKey, entry, AreEdges, AreNumbers, IsCycleKnown, IsPathKnown};
ghost use Rattle.lifter.specs.Progress.{HasClosedBy};

use super::known::Known;
use super::line::{FactNumbers, Line};
use super::state::State;
use pc_common::{Listed, Memory};
use pc_ground::NodeKey;
use refutation::BranchFact;
use std::alloc::Global;

/// The number of a key that is known.
fn number_of(known: &Known, key: BranchFact) -> u64
    requires { HasKey known.now (plain_branch_fact key) }
    ensures { In (entry (plain_branch_fact key) result) known.now }
{
    match known.get(key) {
        Some(number) => number,
        None => unreachable!(),
    }
}

/// The numbers of the edges that lead from a node over the others in their order, and then to the last one.
fn numbers_along(
    alloc: Global,
    known: &Known,
    from: NodeKey,
    via: &[NodeKey],
    to: NodeKey,
) -> Result<FactNumbers, Memory>
    requires { AreEdges known.now (key_node from) (map key_node via.now ++ key_node to ∷ []) }
    ensures { IfOk result (λ ks. AreNumbers known.now (key_node from) (map key_node via.now ++ key_node to ∷ []) ks) }
{
    let mut numbers = Listed::new(alloc);
    let mut at = from;
    for next in via {
        numbers.push(number_of(known, BranchFact::Edge(at, *next)))?;
        at = *next;
    }
    numbers.push(number_of(known, BranchFact::Edge(at, to)))?;
    Ok(numbers)
}

/// The same numbers, of which the first stands apart.
fn numbers_to(
    alloc: Global,
    known: &Known,
    from: NodeKey,
    via: &[NodeKey],
    to: NodeKey,
) -> Result<(u64, FactNumbers), Memory>
    requires { AreEdges known.now (key_node from) (map key_node via.now ++ key_node to ∷ []) }
    ensures { IfOk result
        (λ r. AreNumbers known.now (key_node from) (map key_node via.now ++ key_node to ∷ []) (r.0 ∷ r.1)) }
{
    match via {
        [] => Ok((
            number_of(known, BranchFact::Edge(from, to)),
            Listed::new(alloc),
        )),
        [next, rest @ ..] => {
            let first = number_of(known, BranchFact::Edge(from, *next));
            let more = numbers_along(alloc, known, *next, rest, to)?;
            Ok((first, more))
        }
    }
}

/// Closes the first branch by the edges from each of these nodes to the next, and from the last to the first.
pub(crate) fn add_cycle(
    alloc: Global,
    state: &mut State<'_>,
    nodes: &[NodeKey],
) -> Result<(), Memory>
    requires { IsCycleKnown state.old.known (map key_node nodes.now) }
    ensures { OnOk result (HasClosedBy state.old state.new) }
{
    match nodes {
        [] => unreachable!(),
        [from, via @ ..] => {
            let numbers = numbers_to(alloc, &state.known, *from, via, *from)?;
            state.steps.push(Line::Cycle(numbers.0, numbers.1))
        }
    }
}

/// Closes the first branch by the edges from each of these nodes to the next, and the denial of one from the first to
/// the last.
pub(crate) fn add_path(
    alloc: Global,
    state: &mut State<'_>,
    nodes: &[NodeKey],
) -> Result<(), Memory>
    requires { IsPathKnown state.old.known (map key_node nodes.now) }
    ensures { OnOk result (HasClosedBy state.old state.new) }
{
    match nodes {
        [from, via @ .., to] => {
            let numbers = numbers_to(alloc, &state.known, *from, via, *to)?;
            let denial = number_of(&state.known, BranchFact::NoEdge(*from, *to));
            state.steps.push(Line::Path(numbers.0, numbers.1, denial))
        }
        _ => unreachable!(),
    }
}

/// Closes the first branch by the denial of a node that is asserted.
pub(crate) fn add_absent(state: &mut State<'_>, node: NodeKey) -> Result<(), Memory>
    requires denied { HasKey state.old.known (no_node (key_node node)) }
    requires asserted { HasKey state.old.known (present (key_node node)) }
    ensures { OnOk result (HasClosedBy state.old state.new) }
{
    let denial = number_of(&state.known, BranchFact::NoNode(node));
    let number = number_of(&state.known, BranchFact::Present(node));
    state.steps.push(Line::Absent(denial, number))
}
