ghost use Rattle.std.specs.Prelude.{◌≡◌, ◌<◌, ◌≤◌, ◌+◌, ◌↔◌, ◌⊎◌, ℕ, All, Contains, IfOk, OnOk, length, map};
ghost use Rattle.pc_common.specs.World.{Node as PlainNode};
ghost use Rattle.pc_ground.specs.Keys.{key_node};
ghost use Rattle.pc_ground.specs.Literals.{Joins, IsPresent};
ghost use Rattle.graph_text.specs.Graphs.{graph_nodes, graph_edges, key_edge};
ghost use Rattle.order_graph.specs.Ways.{IsBelow};
ghost use Rattle.solver.specs.Shown.{ArePresent, AreEdges, IsPresentNoted, edge_over};

use crate::tree::numbered_tree::NumberedTree;
use graph_text::{Edges, Graph, Nodes};
use indexmap::IndexSet;
use order_graph::OrderGraph;
use pc_common::Memory;
use pc_ground::Literal;
use refutation::Refutation;
use std::alloc::Global;

/// What a search finds.
#[derive(Drop)]
pub enum Answer {
    /// A graph whose world satisfies the tree.
    Observable(Graph),
    /// No world satisfies the tree, as this refutation shows.
    Unobservable(Refutation),
}

/// Puts the node of number `k` last where it is present.
fn note_present(
    tree: &NumberedTree,
    graph: &OrderGraph,
    k: u32,
    nodes: &mut Nodes,
) -> Result<(), Memory>
    requires all { graph.now.nodes ≡ length tree.now.nodes }
    requires inside { k < length tree.now.nodes }
    ensures { OnOk result (IsPresentNoted tree.now.nodes graph.now.literals k
        (map key_node nodes.old) (map key_node nodes.new)) }
{
    if graph.present(k) {
        nodes.push(tree.key(k))?;
    }
    Ok(())
}

/// The present nodes, by number.
fn present_nodes(alloc: Global, tree: &NumberedTree, graph: &OrderGraph) -> Result<Nodes, Memory>
    requires { graph.now.nodes ≡ length tree.now.nodes }
    ensures { IfOk result (λ nodes.
        ArePresent tree.now.nodes graph.now.literals (length tree.now.nodes) (map key_node nodes)) }
{
    let mut nodes = Nodes::new(alloc);
    for k in 0..tree.count() {
        note_present(tree, graph, k, &mut nodes)?;
    }
    Ok(nodes)
}

/// Puts the pair of an asserted edge into the set.
fn note_edge(literal: Literal<u32>, pairs: &mut IndexSet<(u32, u32)>) -> Result<(), Memory>
    ensures { OnOk result ((j k : ℕ)
        → Contains pairs.new.keys (j, k) ↔ (Contains pairs.old.keys (j, k) ⊎ (literal ≡ Literal.Edge j k))) }
{
    if let Literal::Edge(a, b) = literal {
        pairs.insert((a, b))?;
    }
    Ok(())
}

/// The pairs of the asserted edges, each once, in order of first assertion.
fn edge_pairs(alloc: Global, graph: &OrderGraph) -> Result<IndexSet<(u32, u32)>, Memory>
    ensures { IfOk result (λ pairs. (j k : ℕ) → Contains pairs.keys (j, k) ↔ Joins graph.now.literals j k) }
{
    let mut pairs = IndexSet::new(alloc);
    for k in 0..graph.len() {
        note_edge(graph.literal(k), &mut pairs)?;
    }
    Ok(pairs)
}

/// The edges of these pairs.
fn named_edges(alloc: Global, tree: &NumberedTree, pairs: &[(u32, u32)]) -> Result<Edges, Memory>
    requires from { All (λ p. p.0 < length tree.now.nodes) pairs.now }
    requires to { All (λ p. p.1 < length tree.now.nodes) pairs.now }
    ensures { IfOk result (λ edges. map key_edge edges ≡ map (edge_over tree.now.nodes) pairs.now) }
{
    let mut edges = Edges::new(alloc);
    for pair in pairs {
        edges.push((tree.key(pair.0), tree.key(pair.1)))?;
    }
    Ok(edges)
}

/// The asserted edges, each once.
fn shown_edges(alloc: Global, tree: &NumberedTree, graph: &OrderGraph) -> Result<Edges, Memory>
    requires below { All (IsBelow (length tree.now.nodes)) graph.now.literals }
    ensures { IfOk result (λ edges. AreEdges tree.now.nodes graph.now.literals (map key_edge edges)) }
{
    let pairs = edge_pairs(alloc, graph)?;
    named_edges(alloc, tree, pairs.as_slice())
}

/// The graph of what is asserted: the present nodes by number, then the edges.
pub(crate) fn graph_of(
    alloc: Global,
    tree: &NumberedTree,
    graph: &OrderGraph,
) -> Result<Graph, Memory>
    requires all { graph.now.nodes ≡ length tree.now.nodes }
    requires below { All (IsBelow (length tree.now.nodes)) graph.now.literals }
    ensures nodes { IfOk result (λ g.
        ArePresent tree.now.nodes graph.now.literals (length tree.now.nodes) (graph_nodes g)) }
    ensures edges { IfOk result (λ g. AreEdges tree.now.nodes graph.now.literals (graph_edges g)) }
{
    let nodes = present_nodes(alloc, tree, graph)?;
    let edges = shown_edges(alloc, tree, graph)?;
    Ok(Graph { nodes, edges })
}
