ghost use Rattle.std.specs.Prelude.{◌≡◌, ◌↔◌, map, Contains, IfOk, MatchOption};
ghost use Rattle.pc_common.specs.World.{Node, World, has_node, has_edge};
ghost use Rattle.pc_common.specs.Generated.{HasEnds, IsGenerated};
ghost use Rattle.pc_ground.specs.Keys.{key_node};
ghost use Rattle.pc_ground.specs.Numbers.{IsNumberOf};
ghost use Rattle.graph_text.specs.Graphs.{key_edge, graph_nodes, graph_edges};
ghost use Rattle.graph_text.specs.GraphReading.{plain_graph};
ghost use Rattle.graph_check.specs.Orders.{AreNotNumbered, IsOrdered, AreArcsOf};

use super::adjacency::Adjacency;
use super::columns::Columns;
use super::search::topological_order;
use graph_text::Graph;
use pc_common::Memory;
use pc_ground::{NodeKey, Numbering};
use std::alloc::Global;
use std::marker::Model;

/// The order that a graph's edges generate.
pub(crate) struct Order<'a> {
    alloc: Global,
    graph: &'a Graph,
    nodes: Numbering,
    adjacency: Adjacency,
    order: Vec<usize>,
    columns: Columns,
}

// By hand: docs/DECISIONS.md, "Drops are written by hand".
impl Drop for Order<'_> {
    fn drop(self) {
        let Order {
            alloc: _,
            graph: _,
            nodes: _,
            adjacency: _,
            order: _,
            columns: _,
        } = self;
    }
}

impl<'a> Model for Order<'a> {
    ghost use Rattle.graph_text.specs.OpenGraphs.{PlainGraph};
    ghost use Rattle.graph_text.specs.GraphReading.{plain_graph};
    ghost use Rattle.graph_check.specs.Orders.{IsOrderOf};

    ghost Value = { PlainGraph };

    ghost view = { λ s. plain_graph s.graph.now };

    ghost invariant = { λ s. IsOrderOf (plain_graph s.graph.now) s.nodes s.adjacency s.order.items s.columns };
}

/// Numbers the nodes, each once, in the order of first sight. The one error is that memory was refused.
fn number_all(alloc: Global, keys: &[NodeKey]) -> Result<Numbering, Memory>
    ensures { IfOk result (λ nodes. (a : Node) → Contains nodes a ↔ Contains (map key_node keys.now) a) }
{
    let mut nodes = Numbering::new(alloc);
    for key in keys {
        nodes.see(*key)?;
    }
    Ok(nodes)
}

/// The numbers of two nodes, None where one has none.
fn numbers(nodes: &Numbering, from: NodeKey, to: NodeKey) -> Option<(u32, u32)>
    ensures { MatchOption result (AreNotNumbered nodes.now (key_node from) (key_node to))
        (λ pair. IsNumberOf nodes.now pair.0 (key_node from) × IsNumberOf nodes.now pair.1 (key_node to)) }
{
    Some((nodes.number(from)?, nodes.number(to)?))
}

/// The edges by the numbers of their ends; None where an end of one is no node.
fn number_edges(
    alloc: Global,
    nodes: &Numbering,
    edges: &[(NodeKey, NodeKey)],
) -> Result<Option<Adjacency>, Memory>
    ensures { IfOk result (λ found. MatchOption found (HasEnds nodes.now (map key_edge edges.now) → ⊥)
        (λ adjacency. AreArcsOf nodes.now (map key_edge edges.now) adjacency)) }
{
    let mut adjacency = Adjacency::new(alloc, nodes.len() as usize)?;
    for edge in edges {
        match numbers(nodes, edge.0, edge.1) {
            Some((from, to)) => adjacency.push(from, to)?,
            None => return Ok(None),
        }
    }
    Ok(Some(adjacency))
}

impl<'a> Order<'a> {
    /// The order of a graph: None where an end of an edge is on no node line, or where the edges have a cycle.
    ///
    /// It takes time and memory in proportion to nodes and edges. The one error is that memory was refused.
    pub(crate) fn generate(alloc: Global, graph: &'a Graph) -> Result<Option<Order<'a>>, Memory>
        ensures { IfOk result (λ found. MatchOption found
            (IsOrdered (graph_nodes graph.now) (graph_edges graph.now) → ⊥)
            (λ order. (order ≡ plain_graph graph.now) × IsOrdered order.nodes order.edges)) }
    {
        let nodes = number_all(alloc, graph.nodes.as_slice())?;
        let Some(adjacency) = number_edges(alloc, &nodes, graph.edges.as_slice())? else {
            return Ok(None);
        };
        let Some(order) = topological_order(alloc, &adjacency)? else {
            return Ok(None);
        };
        let columns = Columns::new(alloc, &adjacency)?;
        Ok(Some(Order {
            alloc,
            graph,
            nodes,
            adjacency,
            order,
            columns,
        }))
    }

    /// Whether the node is there. Takes no memory.
    pub(crate) fn has_node(&self, node: NodeKey) -> bool
        ensures { (w : World Node) → IsGenerated self.now.nodes self.now.edges w → result ≡ has_node w (key_node node) }
    {
        self.nodes.number(node).is_some()
    }

    /// Whether the first node happens before the second. A listed edge is found among those from its first node.
    /// For any other pair, what leads to the second node is worked out, once for each such node, in memory for a
    /// flag for each node. The one error is that memory was refused.
    pub(crate) fn has_edge(&mut self, from: NodeKey, to: NodeKey) -> Result<bool, Memory>
        ensures same { self.new ≡ self.old }
        ensures ordered { IfOk result (λ yes. (w : World Node) → IsGenerated self.old.nodes self.old.edges w
            → yes ≡ has_edge w (key_node from) (key_node to)) }
    {
        match numbers(&self.nodes, from, to) {
            Some((from, to)) => self.columns.leads(
                self.alloc,
                &self.adjacency,
                &self.order,
                from as usize,
                to as usize,
            ),
            None => Ok(false),
        }
    }
}
