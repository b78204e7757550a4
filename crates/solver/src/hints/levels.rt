use super::changes::literal_of;
use order_graph::OrderGraph;
use pc_ground::Literal;
use std::alloc::Global;
use std::collections::HashMap;

/// What a clash asks of the literals: an edge, or a denied edge.
#[derive(Clone, Copy, PartialEq, Eq, Hash)]
pub(crate) enum Said {
    Edge(u32, u32),
    NoEdge(u32, u32),
}

/// The edge or the denied edge that the graph's literal at `k` is.
fn said_at(graph: &OrderGraph, k: usize) -> Option<Said> {
    if k >= graph.len() {
        return None;
    }
    match literal_of(graph, k) {
        Literal::Edge(a, b) => Some(Said::Edge(a, b)),
        Literal::NoEdge(a, b) => Some(Said::NoEdge(a, b)),
        Literal::Node(_) | Literal::NoNode(_) => None,
    }
}

/// At which level of the search each edge was asserted or denied first: level 0 is what the whole tree asserts, and each
/// split begins the next one.
#[derive(Drop)]
pub(crate) struct Levels {
    levels: HashMap<Said, usize>,
    /// How many of the graph's literals were noted.
    known: usize,
    /// How many levels have all their literals noted.
    pub(crate) noted: usize,
    /// Whether memory was refused to one.
    pub(crate) is_refused: bool,
}

impl Levels {
    /// That of no literal.
    pub(crate) fn new(alloc: Global) -> Levels {
        Levels {
            levels: HashMap::new(alloc),
            known: 0,
            noted: 0,
            is_refused: false,
        }
    }

    /// The level at which this was said first: 0 where it was not.
    pub(crate) fn level_of(&self, said: Said) -> usize {
        self.levels.get(&said).copied().unwrap_or(0)
    }

    /// Notes the graph's literals up to the first `end`, which end this level: they are of it where they are not noted.
    pub(crate) fn note(&mut self, graph: &OrderGraph, end: usize, level: usize) {
        for k in self.known..end {
            let Some(said) = said_at(graph, k) else {
                continue;
            };
            if !self.levels.contains_key(&said) {
                self.is_refused |= self.levels.insert(said, level).is_err();
            }
        }
        self.known = self.known.max(end);
        self.noted = level.saturating_add(1);
    }

    /// Forgets the literals after the first `count`, which are of this level or of later ones, while the graph has them.
    pub(crate) fn cut(&mut self, graph: &OrderGraph, count: usize, level: usize) {
        for k in count..self.known {
            let Some(said) = said_at(graph, k) else {
                continue;
            };
            if self.level_of(said) >= level {
                self.levels.remove(&said);
            }
        }
        self.known = self.known.min(count);
        self.noted = self.noted.min(level);
    }
}
