use super::changes::literal_of;
use super::conflict_sets::ConflictSets;
use super::levels::{Levels, Said};
use super::records::Records;
use crate::tree::place::Place;
use order_graph::{Clash, OrderGraph};
use pc_ground::Literal;
use refutation::Cut;
use std::alloc::Global;

/// How a part of the search failed: by a split of this Or, and then on each side by what its script says. Where a side
/// has none, a leaf closed it.
#[derive(Clone, Copy)]
struct Script {
    place: Place,
    left: Option<usize>,
    right: Option<usize>,
}

/// How the left side of a split failed, while its right side is searched.
#[derive(Clone, Copy)]
struct LeftFailure {
    /// Whether the split took no part in the failure: then the same refutation closes the right side.
    is_independent: bool,
    script: Option<usize>,
    /// How many levels waited before its conflict set.
    waited: usize,
    /// Where its steps end.
    end: usize,
}

/// A split on the way to the first open branch: a decision level of the search.
#[derive(Clone, Copy)]
struct Fork {
    place: Place,
    /// Which step it is.
    step: usize,
    /// The level at which its Or was asserted.
    origin: usize,
    /// How many literals there were before it.
    literals: usize,
    /// The script that it follows.
    script: Option<usize>,
    /// How the left side failed, once the right side is searched.
    left: Option<LeftFailure>,
}

/// What the search learns of its failures: which splits to make next. No clause speaks of it, since what it
/// proposes is tested.
///
/// A leaf closes a side by literals that clash. Its *conflict set* has the levels at which they were asserted, and the
/// level of the side. When both sides of a split have failed and both conflict sets have the level of the split, their
/// union is the conflict set of the split, with the level at which its Or was asserted in place of its own level. A
/// conflict set without the level of the split is that of the split as it is (Prosser 1993).
///
/// The search still refutes each side, since a refutation has each of them. So where a left side has failed
/// without its split, the right one is searched by the same splits: they are replayed.
#[derive(Drop)]
pub(crate) struct Failures {
    /// The level of a split is its place here, from 1; level 0 is what the whole tree asserts.
    forks: Vec<Fork>,
    literals: Levels,
    /// How many positions there are: the list below, of one level a position, is made with the first Or that a split
    /// asserts.
    positions: usize,
    levels: Vec<usize>,
    /// The conflict set of the failure at hand, and those of left sides.
    conflicts: ConflictSets,
    pub(crate) records: Records,
    /// The scripts of what failed, with the splits alone that took part. Each names only scripts before it, by number.
    scripts: Vec<Script>,
    /// The script of the failure at hand, and the one that the next split is to follow.
    found: Option<usize>,
    guide: Option<usize>,
    /// Where the steps end that close the side at hand.
    end: usize,
    /// Which steps are not needed.
    pub(crate) cuts: Vec<Cut>,
    /// Whether memory was refused to the forks, the levels, the scripts or the cuts.
    is_refused: bool,
}

/// Whether the literal says of the node that it is there, or that it is not.
fn names(literal: Literal<u32>, node: u32) -> bool {
    match literal {
        Literal::Node(a) | Literal::NoNode(a) => a == node,
        Literal::Edge(a, b) => a == node || b == node,
        Literal::NoEdge(_, _) => false,
    }
}

impl Failures {
    /// Those of a search over so many positions, before its first turn.
    pub(crate) fn new(alloc: Global, positions: usize) -> Failures {
        Failures {
            forks: Vec::new(alloc),
            literals: Levels::new(alloc),
            positions,
            levels: Vec::new(alloc),
            conflicts: ConflictSets::new(alloc),
            records: Records::new(alloc, positions),
            scripts: Vec::new(alloc),
            found: None,
            guide: None,
            end: 0,
            cuts: Vec::new(alloc),
            is_refused: false,
        }
    }

    /// Whether memory was refused to any of them.
    pub(crate) fn is_refused(&self) -> bool {
        self.is_refused
            | self.literals.is_refused
            | self.conflicts.is_refused
            | self.records.is_refused
    }

    /// The Or is asserted on the side at hand.
    pub(crate) fn note_or(&mut self, position: usize) {
        let level = self.forks.len();
        if level == 0 {
            return;
        }
        if self.levels.is_empty() {
            self.is_refused |= self.levels.resize(self.positions, 0).is_err();
        }
        if position < self.levels.len() {
            self.levels[position] = level;
        }
    }

    /// The level at which the Or was asserted.
    fn level_of_or(&self, position: usize) -> usize {
        if position < self.levels.len() {
            self.levels[position]
        } else {
            0
        }
    }

    /// The script of this number.
    fn script(&self, number: Option<usize>) -> Option<Script> {
        let number = number?;
        if number < self.scripts.len() {
            Some(self.scripts[number])
        } else {
            None
        }
    }

    /// The Or that is to be split next, where a failure is to be replayed.
    pub(crate) fn guide(&self) -> Option<Place> {
        Some(self.script(self.guide)?.place)
    }

    /// The Or is split by this step, and its left side is searched next. Where it is another Or than the replay has here,
    /// the replay ends.
    pub(crate) fn split(&mut self, place: Place, graph: &OrderGraph, step: usize) {
        let mut script = self.guide;
        self.guide = None;
        match self.script(script) {
            Some(followed) if followed.place.position == place.position => {
                self.guide = followed.left;
            }
            _ => script = None,
        }
        let origin = self.level_of_or(place.position);
        let literals = graph.len();
        let fork = Fork {
            place,
            step,
            origin,
            literals,
            script,
            left: None,
        };
        self.is_refused |= self.forks.push(fork).is_err();
    }

    /// A leaf closes the side at hand by this clash, and the steps so far end with it. The graph has the literals that
    /// clash.
    pub(crate) fn learn(&mut self, clash: &Clash, graph: &OrderGraph, end: usize) {
        self.end = end;
        self.note_literals(graph);
        self.conflicts.clear();
        self.add_clash(clash, graph);
        self.conflicts.put(self.forks.len());
        self.record_conflict();
        self.found = None;
        for _ in 0..self.forks.len() {
            if self.go_up(graph) {
                return;
            }
        }
    }

    /// Notes the literals of all levels but that of the side at hand, which is in each conflict set anyway.
    fn note_literals(&mut self, graph: &OrderGraph) {
        for level in self.literals.noted..self.forks.len() {
            self.literals.note(graph, self.forks[level].literals, level);
        }
    }

    /// Puts the level at which this was said into the conflict set.
    fn add_said(&mut self, said: Said) {
        self.conflicts.put(self.literals.level_of(said));
    }

    /// Puts the level into it at which a literal first said of the node that it is there, or that it is not.
    fn add_node(&mut self, node: u32, graph: &OrderGraph) {
        let mut from = 0;
        for level in 0..self.forks.len() {
            let end = self.forks[level].literals;
            for k in from..end {
                if k < graph.len() && names(literal_of(graph, k), node) {
                    self.conflicts.put(level);
                    return;
                }
            }
            from = end;
        }
    }

    /// Puts the levels of the literals that clash into the conflict set.
    fn add_clash(&mut self, clash: &Clash, graph: &OrderGraph) {
        match clash {
            Clash::Cycle(nodes) => self.add_edges(nodes.as_slice(), false),
            Clash::Path(nodes) => self.add_edges(nodes.as_slice(), true),
            Clash::Absent(node) => self.add_node(*node, graph),
        }
    }

    /// Puts the levels of the edges from each node to the next into it, and that of what joins both ends: an edge from the
    /// last node to the first, or a denied one from the first to the last.
    fn add_edges(&mut self, nodes: &[u32], is_denied: bool) {
        if nodes.is_empty() {
            return;
        }
        for k in 1..nodes.len() {
            self.add_said(Said::Edge(nodes[k - 1], nodes[k]));
        }
        let (first, last) = (nodes[0], nodes[nodes.len() - 1]);
        self.add_said(if is_denied {
            Said::NoEdge(first, last)
        } else {
            Said::Edge(last, first)
        });
    }

    /// Each Or whose split is in the conflict set at hand gets a record of it.
    fn record_conflict(&mut self) {
        self.records.failures = self.records.failures.saturating_add(1);
        for k in 0..self.conflicts.len() {
            let level = self.conflicts.level(k);
            if 0 < level && level <= self.forks.len() {
                let position = self.forks[level - 1].place.position;
                self.records.put(position);
            }
        }
    }

    /// The side of the last fork that is searched has failed. Returns whether a right side is searched next.
    fn go_up(&mut self, graph: &OrderGraph) -> bool {
        let Some(fork) = self.forks.pop() else {
            return true;
        };
        let level = self.forks.len().saturating_add(1);
        self.literals.cut(graph, fork.literals, level);
        match fork.left {
            None => {
                self.turn_right(fork);
                true
            }
            Some(left) => {
                self.close(fork, left);
                false
            }
        }
    }

    /// The left side of the fork, which was the last, has failed: its right side is searched next.
    fn turn_right(&mut self, fork: Fork) {
        let level = self.forks.len().saturating_add(1);
        let is_independent = !self.conflicts.has(level);
        self.guide = if is_independent {
            self.found
        } else {
            self.right_of(fork.script)
        };
        let waited = self.conflicts.set_aside(level);
        let left = LeftFailure {
            is_independent,
            script: self.found,
            waited,
            end: self.end,
        };
        let fork = Fork {
            left: Some(left),
            ..fork
        };
        self.is_refused |= self.forks.push(fork).is_err();
    }

    /// The script of the right side.
    fn right_of(&self, script: Option<usize>) -> Option<usize> {
        self.script(script)?.right
    }

    /// Both sides of the fork, which was the last, have failed.
    fn close(&mut self, fork: Fork, left: LeftFailure) {
        let level = self.forks.len().saturating_add(1);
        if left.is_independent {
            self.take_left(fork, left);
        } else if self.conflicts.has(level) {
            self.join(fork, left);
        } else {
            self.take_right(fork, left);
        }
    }

    /// The fork took no part in the failure of its left side: that conflict set and script stand for both sides, and the
    /// steps of the left side for the split.
    fn take_left(&mut self, fork: Fork, left: LeftFailure) {
        self.found = left.script;
        self.conflicts.clear();
        self.conflicts.unite(left.waited);
        self.cut(fork.step, fork.step.saturating_add(1));
        self.cut(left.end, self.end);
    }

    /// The steps from `start` on, up to the one before `end`, are not needed.
    fn cut(&mut self, start: usize, end: usize) {
        self.is_refused |= self.cuts.push(Cut { start, end }).is_err();
    }

    /// The fork took no part in the failure of its right side: that conflict set and script stand for both sides, and the
    /// steps of the right side for the split.
    fn take_right(&mut self, fork: Fork, left: LeftFailure) {
        self.conflicts.discard(left.waited);
        self.cut(fork.step, left.end);
    }

    /// The fork took part in the failures of both sides: their conflict sets and scripts are joined.
    fn join(&mut self, fork: Fork, left: LeftFailure) {
        self.conflicts.unite(left.waited);
        self.record_conflict();
        self.records.put(fork.place.position);
        let script = Script {
            place: fork.place,
            left: left.script,
            right: self.found,
        };
        self.found = Some(self.scripts.len());
        self.is_refused |= self.scripts.push(script).is_err();
        self.conflicts.put(fork.origin);
    }
}
