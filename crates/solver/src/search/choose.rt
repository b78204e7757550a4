ghost use Rattle.std.specs.Prelude.{◌≡◌, ◌<◌, ◌^◌, IfOk, length};
ghost use Rattle.pc_ground.specs.Refutes.{literals_of};
ghost use Rattle.solver.specs.Spelled.{spelled};
ghost use Rattle.solver.specs.Places.{place_signed, IsCandidate};
ghost use Rattle.solver.specs.Opens.{positions, IsSame, IsMarked};
ghost use Rattle.solver.specs.Branches.{HasSameRest};

use super::branch::Branch;
use super::candidate::is_candidate_now;
use crate::hints::propose;
use crate::tree::numbered_tree::NumberedTree;
use crate::tree::place::Place;
use order_graph::Mark;
use pc_common::Memory;
use pc_ground::Version;
use std::alloc::Global;
use std::sync::ledger::Ledger;
use undo_trail::Steps;

/// The candidate to split. In a replay it is the Or that was split on the left. Otherwise version 1 takes the first
/// with a side that is closed at once, and version 2 the first with both sides closed, or else with one. If no side of
/// any is closed, it is what the failures say (`propose`), and without any failure `first`. What the agenda proposes is
/// tested.
pub(crate) fn choose<L: Ledger>(
    alloc: Global,
    tree: &NumberedTree,
    version: Version,
    first: Place,
    mark: Mark,
    branch: &mut Branch,
    steps: &mut Steps<L>,
) -> Result<Place, Memory>
    requires first { IsCandidate (spelled tree.now.rows) (positions branch.old.asserted) (place_signed first) }
    requires small { first.position < 2 ^ 63 }
    requires nodes { branch.old.graph.nodes ≡ length tree.now.nodes }
    requires literals { branch.old.graph.literals
        ≡ literals_of (spelled tree.now.rows) (positions branch.old.asserted) }
    requires marked { IsMarked branch.old.graph mark }
    ensures found { IfOk result (λ q.
        IsCandidate (spelled tree.now.rows) (positions branch.old.asserted) (place_signed q)) }
    ensures small { IfOk result (λ q. q.position < 2 ^ 63) }
    ensures graph { IfOk result (λ _. IsSame branch.old.graph branch.new.graph) }
    ensures asserted { branch.new.asserted ≡ branch.old.asserted }
    ensures rest { HasSameRest branch.old branch.new }
{
    if let Some(guide) = branch.agenda.guide() {
        if is_candidate_now(alloc, tree, &branch.graph, &branch.asserted, guide)? {
            return Ok(guide);
        }
    }
    let place = propose(
        tree,
        version,
        first,
        mark,
        &mut branch.graph,
        &mut branch.agenda,
        steps,
    )?;
    if place.position == first.position {
        return Ok(first);
    }
    if is_candidate_now(alloc, tree, &branch.graph, &branch.asserted, place)? {
        return Ok(place);
    }
    Ok(first)
}
