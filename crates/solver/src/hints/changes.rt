ghost use Rattle.std.specs.Prelude.{◌≡◌, ◌<◌, length};
ghost use Rattle.order_graph.specs.Ways.{IsBelow};

use super::bits::Bits;
use order_graph::OrderGraph;
use pc_ground::Literal;
use std::alloc::Global;

/// Which nodes the other node of a pair is among, where the pair may have changed: all, or those of the set of `Changes`
/// that has this name.
#[derive(Clone, Copy)]
pub(crate) enum Others {
    All,
    Reached,
    Closing,
}

/// A denied edge.
#[derive(Clone, Copy)]
struct Denial {
    from: u32,
    to: u32,
}

/// How much a node reached before a look.
#[derive(Clone, Copy)]
struct Before {
    node: u32,
    size: u64,
}

/// How much there was of what a search goes back to.
#[derive(Clone, Copy)]
struct Moment {
    literals: usize,
    denials: usize,
    befores: usize,
}

/// Which pairs of nodes may have become true, or a clash, by the literals that a side asserted: by what reaches more than it
/// did before.
///
/// An edge over a pair is true from then on where the first node reaches more, and now the second one. It would clash from
/// then on in three cases:
///
/// - the second node reaches more, and now the first one: the edge would close a cycle;
/// - the second node reaches more, and now the end of a denied edge, whose start reaches the first node;
/// - the start of a denied edge reaches more, and now the first node, and the second one reaches the end.
///
/// Where an edge is denied anew, an edge over a pair would clash from then on where its start reaches the first node, and the
/// second one reaches its end. Of the last two cases only the start is looked at.
#[derive(Drop)]
pub(crate) struct Changes {
    /// How much each node reaches, as a number that grows with it.
    sizes: Vec<u64>,
    /// What the branch changed of it, the newest last.
    befores: Vec<Before>,
    /// The denied edges that say something new, in order of assertion.
    denials: Vec<Denial>,
    /// How many literals were looked at.
    seen: usize,
    /// How much there was at each split that waits.
    moments: Vec<Moment>,
    /// The nodes that reach more.
    pub(crate) grown: Bits,
    /// The ends of the new edges, and all that they reach.
    reached: Bits,
    /// These, the starts of the denied edges that end in one of them, and all that those starts reach.
    closing: Bits,
    /// What the starts of denied edges newly reach, with the starts of the new ones.
    pub(crate) starting: Bits,
    /// The nodes that a new literal names, and those that it denies.
    pub(crate) named: Bits,
    pub(crate) denied: Bits,
    /// The nodes of which pairs may have changed.
    touched: Bits,
    /// Whether memory was refused to a list.
    pub(crate) is_refused: bool,
}

/// The literal at `k` of the graph.
pub(crate) fn literal_of(graph: &OrderGraph, k: usize) -> Literal<u32>
    requires { k < length graph.now.literals }
    ensures { IsBelow graph.now.nodes result }
{
    // for the proof alone: what the type of the graph keeps
    let _literals = graph.len();
    graph.literal(k)
}

/// A number that is larger for a larger set of nodes: the sum of its half words.
fn size_of(words: &[u64]) -> u64 {
    let mut size: u64 = 0;
    for k in 0..words.len() {
        let word = words[k];
        size = size
            .wrapping_add(word >> 32)
            .wrapping_add(word & 0xffff_ffff);
    }
    size
}

impl Changes {
    /// That of no nodes, which finds nothing.
    pub(crate) fn new(alloc: Global) -> Changes {
        Changes {
            sizes: Vec::new(alloc),
            befores: Vec::new(alloc),
            denials: Vec::new(alloc),
            seen: 0,
            moments: Vec::new(alloc),
            grown: Bits::new(alloc),
            reached: Bits::new(alloc),
            closing: Bits::new(alloc),
            starting: Bits::new(alloc),
            named: Bits::new(alloc),
            denied: Bits::new(alloc),
            touched: Bits::new(alloc),
            is_refused: false,
        }
    }

    /// Makes room for so many nodes.
    pub(crate) fn begin(&mut self, nodes: usize) {
        self.is_refused |= self.sizes.resize(nodes, 0).is_err();
        self.is_refused |= self.grown.make_room(nodes);
        self.is_refused |= self.reached.make_room(nodes);
        self.is_refused |= self.closing.make_room(nodes);
        self.is_refused |= self.starting.make_room(nodes);
        self.is_refused |= self.named.make_room(nodes);
        self.is_refused |= self.denied.make_room(nodes);
        self.is_refused |= self.touched.make_room(nodes);
    }

    /// A split waits from here on.
    pub(crate) fn split(&mut self) {
        let moment = Moment {
            literals: self.seen,
            denials: self.denials.len(),
            befores: self.befores.len(),
        };
        self.is_refused |= self.moments.push(moment).is_err();
    }

    /// Goes back to the last split that waits.
    pub(crate) fn go_back(&mut self) {
        let Some(moment) = self.moments.pop() else {
            return;
        };
        for _ in moment.befores..self.befores.len() {
            if let Some(before) = self.befores.pop() {
                self.set_size(before.node, before.size);
            }
        }
        self.denials.truncate(moment.denials);
        self.seen = moment.literals;
    }

    fn set_size(&mut self, node: u32, size: u64) {
        let node = node as usize;
        if node < self.sizes.len() {
            self.sizes[node] = size;
        }
    }

    /// Looks at what the literals changed that were asserted since the last look.
    pub(crate) fn look(&mut self, nodes: u32, graph: &OrderGraph)
        requires { nodes ≡ graph.now.nodes }
    {
        self.grown.clear();
        self.reached.clear();
        self.closing.clear();
        self.starting.clear();
        self.named.clear();
        self.denied.clear();
        self.touched.clear();
        let known = self.denials.len();
        for k in self.seen..graph.len() {
            self.note(literal_of(graph, k), nodes, graph);
        }
        self.seen = graph.len();
        self.closing.put_words(&self.reached.words);
        for k in 0..known {
            self.note_known(k, nodes, graph);
        }
        self.touched.put_words(&self.grown.words);
        self.touched.put_words(&self.starting.words);
    }

    /// Notes whether the node reaches more than at the last look.
    fn note_size(&mut self, node: u32, graph: &OrderGraph)
        requires { node < graph.now.nodes }
    {
        let (k, size) = (node as usize, size_of(graph.descendants(node)));
        if k >= self.sizes.len() || self.sizes[k] == size {
            return;
        }
        if !self.moments.is_empty() {
            let before = Before {
                node,
                size: self.sizes[k],
            };
            self.is_refused |= self.befores.push(before).is_err();
        }
        self.set_size(node, size);
        self.grown.put(k, true);
    }

    /// Finds the nodes that reach more by an edge from `a`: where `a` does, all that reach it may.
    fn find_grown(&mut self, a: u32, nodes: u32, graph: &OrderGraph)
        requires all { nodes ≡ graph.now.nodes }
        requires a_in { a < graph.now.nodes }
    {
        if self.grown.has(a as usize) {
            return;
        }
        self.note_size(a, graph);
        if !self.grown.has(a as usize) {
            return;
        }
        for node in 0..nodes {
            if graph.reaches(node, a) {
                self.note_size(node, graph);
            }
        }
    }

    /// Notes that a new literal names the node.
    fn note_name(&mut self, node: u32) {
        self.named.put(node as usize, true);
        self.touched.put(node as usize, true);
    }

    fn note(&mut self, literal: Literal<u32>, nodes: u32, graph: &OrderGraph)
        requires all { nodes ≡ graph.now.nodes }
        requires literal { IsBelow graph.now.nodes literal }
    {
        match literal {
            Literal::Node(a) => self.note_name(a),
            Literal::NoNode(a) => {
                self.note_name(a);
                self.denied.put(a as usize, true);
            }
            Literal::Edge(a, b) => {
                self.note_name(a);
                self.note_name(b);
                self.find_grown(a, nodes, graph);
                if self.grown.has(a as usize) {
                    self.reached.put_words(graph.descendants(b));
                    self.reached.put(b as usize, true);
                }
            }
            Literal::NoEdge(a, b) => {
                // where a chain leads from b to a, one over the denied edge would close a cycle anyway
                if !graph.reaches(b, a) {
                    let denial = Denial { from: a, to: b };
                    self.is_refused |= self.denials.push(denial).is_err();
                    self.starting.put_words(graph.descendants(a));
                    self.starting.put(a as usize, true);
                }
            }
        }
    }

    /// Looks at the denied edge at `k`, which was known.
    fn note_known(&mut self, k: usize, nodes: u32, graph: &OrderGraph)
        requires { nodes ≡ graph.now.nodes }
    {
        if k >= self.denials.len() {
            return;
        }
        let Denial { from, to } = self.denials[k];
        if from >= nodes {
            return;
        }
        if self.reached.has(to as usize) && !self.closing.has(from as usize) {
            self.closing.put_words(graph.descendants(from));
            self.closing.put(from as usize, true);
        }
        if self.grown.has(from as usize) {
            self.starting.put_words(&self.reached.words);
        }
    }

    /// The first node from `from` on of which pairs may have changed.
    pub(crate) fn next_touched(&self, from: u32) -> Option<u32> {
        u32::try_from(self.touched.first_from(from as usize)?).ok()
    }

    /// Whether the node is among these others.
    pub(crate) fn has_other(&self, others: Others, node: u32) -> bool {
        match others {
            Others::All => true,
            Others::Reached => self.reached.has(node as usize),
            Others::Closing => self.closing.has(node as usize),
        }
    }
}
