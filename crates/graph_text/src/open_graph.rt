ghost use Rattle.std.specs.Prelude.{◌≡◌, All, IfOk, OnErr};
ghost use Rattle.pc_common.specs.Generated.{HasEnds};
ghost use Rattle.pc_common.specs.Lines.{node, edge};
ghost use Rattle.pc_ground.specs.Keys.{key_node};
ghost use Rattle.pc_ground.specs.NodeForm.{IsNodeIn};
ghost use Rattle.graph_text.specs.Graphs.{graph_nodes, graph_edges};
ghost use Rattle.graph_text.specs.OpenGraphs.{empty_graph, HasPut, HasTakenText};

use super::graph::{Edges, Graph, Nodes};
use super::graph_line::GraphLine;
use super::reading::read_graph_line;
use indexmap::IndexMap;
use pc_common::Memory;
use pc_ground::{NodeKey, NodeText};
use std::alloc::Global;
use std::marker::Model;

/// The lines of a graph so far: node lines, and then edge lines between the nodes listed.
#[derive(Drop)]
pub struct OpenGraph {
    graph: Graph,
    /// Each node of a node line, once.
    // A map without values: above an `IndexSet` in a public type every library carries the contracts of maps and sets.
    listed: IndexMap<NodeKey, ()>,
}

impl Model for OpenGraph {
    ghost use Rattle.indexmap.specs.IndexMap.{keys};
    ghost use Rattle.graph_text.specs.Graphs.{graph_nodes, graph_edges};
    ghost use Rattle.graph_text.specs.OpenGraphs.{PlainGraph, IsOpen};

    ghost Value = { PlainGraph };

    ghost view = { λ s. record { nodes = graph_nodes s.graph; edges = graph_edges s.graph } };

    ghost invariant = { λ s. IsOpen (keys s.listed) (graph_nodes s.graph) (graph_edges s.graph) };
}

impl OpenGraph {
    /// No line. Takes no memory.
    pub fn new(alloc: Global) -> OpenGraph
        ensures { result ≡ empty_graph }
    {
        OpenGraph {
            graph: Graph {
                nodes: Nodes::new(alloc),
                edges: Edges::new(alloc),
            },
            listed: IndexMap::new(alloc),
        }
    }

    /// Puts a line last, without its LF, where it is a node line or an edge line that may stand next: a node line
    /// where there is no edge yet, an edge line where both ends are listed. Returns whether it did.
    ///
    /// After false, and where memory is refused, nothing has changed.
    pub fn take(&mut self, names: &NodeText<'_>, line: &[u8]) -> Result<bool, Memory>
        ensures taken { IfOk result (HasTakenText names.now line.now self.old self.new) }
        ensures kept { OnErr result (self.new ≡ self.old) }
        ensures of_names { All (IsNodeIn names.now) self.old.nodes → All (IsNodeIn names.now) self.new.nodes }
    {
        match read_graph_line(names, line) {
            Ok(GraphLine::Node(key)) => self.take_node(key),
            Ok(GraphLine::Edge(from, to)) => self.take_edge(from, to),
            Err(_) => Ok(false),
        }
    }

    /// Puts a node line last where there is no edge yet. The room of the map is taken first.
    fn take_node(&mut self, key: NodeKey) -> Result<bool, Memory>
        ensures taken { IfOk result (HasPut self.old (node (key_node key)) self.new) }
        ensures kept { OnErr result (self.new ≡ self.old) }
    {
        if self.graph.edges.len() > 0 {
            return Ok(false);
        }
        self.listed.reserve(1)?;
        self.graph.nodes.push(key)?;
        self.listed.insert(key, ())?;
        Ok(true)
    }

    /// Puts an edge line last where both of its ends are listed.
    fn take_edge(&mut self, from: NodeKey, to: NodeKey) -> Result<bool, Memory>
        ensures taken { IfOk result (HasPut self.old (edge (key_node from) (key_node to)) self.new) }
        ensures kept { OnErr result (self.new ≡ self.old) }
    {
        if !self.listed.contains_key(&from) || !self.listed.contains_key(&to) {
            return Ok(false);
        }
        self.graph.edges.push((from, to))?;
        Ok(true)
    }

    /// The graph of the lines. Each of its edges joins two of its nodes. Takes no memory.
    pub fn graph(&self) -> &Graph
        ensures nodes { graph_nodes result.now ≡ self.now.nodes }
        ensures edges { graph_edges result.now ≡ self.now.edges }
        ensures ends { HasEnds self.now.nodes self.now.edges }
    {
        &self.graph
    }

    /// The graph of the lines. Each of its edges joins two of its nodes. Takes no memory.
    pub fn into_graph(self) -> Graph
        ensures nodes { graph_nodes result ≡ self.nodes }
        ensures edges { graph_edges result ≡ self.edges }
        ensures ends { HasEnds self.nodes self.edges }
    {
        self.graph
    }
}
