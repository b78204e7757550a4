ghost use Rattle.std.specs.Prelude.{◌≡◌, ◌<◌, ◌++◌, ◌∷◌, [], ℕ, All, IfOk, OnOk, length, map};
ghost use Rattle.pc_ground.specs.Keys.{key_node};
ghost use Rattle.order_graph.specs.declared.clash.Clash.{Clash as AnyClash};
ghost use Rattle.refutation.specs.Steps.{plain_step, IsLeaf, open_branches};
ghost use Rattle.solver.specs.Renamed.{node_at};
ghost use Rattle.solver.specs.Leaves.{clash_step, IsClashBelow};

use crate::tree::numbered_tree::NumberedTree;
use order_graph::{Clash, Numbers};
use pc_common::Memory;
use refutation::{Nodes, Refutation, Step};
use std::alloc::Global;

/// The keys of these numbers.
fn keys_of(alloc: Global, tree: &NumberedTree, numbers: &[u32]) -> Result<Nodes, Memory>
    requires { All (λ k. k < length tree.now.nodes) numbers.now }
    ensures { IfOk result (λ nodes. map key_node nodes ≡ map (node_at tree.now.nodes) numbers.now) }
{
    let mut nodes = Nodes::new(alloc);
    for k in numbers {
        nodes.push(tree.key(*k))?;
    }
    Ok(nodes)
}

/// The leaf that a clash gives.
fn leaf_of(alloc: Global, tree: &NumberedTree, clash: &Clash) -> Result<Step, Memory>
    requires { IsClashBelow (length tree.now.nodes) clash.now }
    ensures { IfOk result (λ step. plain_step step ≡ clash_step tree.now.nodes clash.now) }
{
    match clash {
        Clash::Cycle(numbers) => Ok(Step::Cycle(keys_of(alloc, tree, numbers.as_slice())?)),
        Clash::Path(numbers) => Ok(Step::Path(keys_of(alloc, tree, numbers.as_slice())?)),
        Clash::Absent(number) => Ok(Step::Absent(tree.key(*number))),
    }
}

/// Closes the first open branch by a clash.
pub(crate) fn close(
    alloc: Global,
    tree: &NumberedTree,
    clash: Clash,
    refutation: &mut Refutation,
) -> Result<(), Memory>
    requires below { IsClashBelow (length tree.now.nodes) clash }
    requires open { 0 < open_branches refutation.old }
    requires leaf { IsLeaf (clash_step tree.now.nodes clash) }
    ensures { OnOk result (refutation.new ≡ refutation.old ++ clash_step tree.now.nodes clash ∷ []) }
{
    refutation.close_leaf(leaf_of(alloc, tree, &clash)?)
}
