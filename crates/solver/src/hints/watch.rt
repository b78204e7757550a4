use crate::tree::ors::literal_at;
use pc_ground::{Literal, Row, RowKind, Version};
use std::alloc::Global;

/// How many rows an Or of two literals has, which is a *small* one.
const SMALL: usize = 3;

/// What the standing of an Or depends on: a node, or a pair of nodes that a chain may join.
#[derive(Clone, Copy)]
pub(crate) struct Watched {
    /// The list that it is on, which is of one node, and the other node of the pair: the same node where there is no
    /// pair.
    list: u32,
    pub(crate) other: u32,
    /// The position of its literal, and that of the outermost Or around it: half a word each, since rows past that would take
    /// 96 GiB.
    pub(crate) position: u32,
    pub(crate) outer: u32,
}

/// What the Ors depend on, by node, as a solver's watch lists have literals. Each node has four lists: the pairs that begin
/// in it; the pairs that end in it; the literals on the node itself; and the literals with it that a larger Or asserts with
/// others. A list is in order of positions.
///
/// A pair is an edge or a denied edge, or one that the two literals of a small Or join: where these clash, and neither
/// clashes by itself, an edge over the pair would clash. A larger Or is watched by the nodes of its literals instead, so that
/// the lists grow with the tree.
#[derive(Drop)]
pub(crate) struct Watch {
    /// Where each list begins. After the last list there is one place more, where it ends.
    starts: Vec<usize>,
    items: Vec<Watched>,
    /// Whether memory was refused to what is to be watched.
    pub(crate) is_refused: bool,
}

/// How many lists a node has.
const LISTS: u32 = 4;

/// Which of them has the pairs that begin in the node.
pub(crate) const STARTS: u32 = 0;

/// Which has the pairs that end in it.
pub(crate) const ENDS: u32 = 1;

/// Which has the literals on the node itself.
pub(crate) const OWN: u32 = 2;

/// Which has the literals with the node that others stand beside in a larger Or.
pub(crate) const JOINT: u32 = 3;

/// One of the lists of a node.
pub(crate) fn list_of(node: u32, which: u32) -> u32 {
    node.saturating_mul(LISTS).saturating_add(which)
}

/// Where an Or ends that stands at this position, or 0 where none does.
fn end_of(row: Row<u32>, position: usize) -> usize {
    match row.kind {
        RowKind::Or => position.saturating_add(row.skip),
        _ => 0,
    }
}

/// Where the last Or ends, or 0 where there is none.
pub(crate) fn end_of_ors(rows: &[Row<u32>]) -> usize {
    let mut end = 0;
    for p in 0..rows.len() {
        if p >= end {
            end = end.max(end_of(rows[p], p));
        }
    }
    end
}

/// The lists in the making: what is to be watched, in order of positions.
#[derive(Drop)]
struct Watching {
    version: Version,
    items: Vec<Watched>,
    /// Where the outermost Or at hand stands, and where it ends; whether it is a small one; and where the outermost And in
    /// it ends that was met last.
    outer: usize,
    end: usize,
    is_small: bool,
    and_end: usize,
    /// Whether memory was refused to what is to be watched.
    is_refused: bool,
}

impl Watching {
    fn put(&mut self, list: u32, other: u32, position: usize) {
        let (Ok(position), Ok(outer)) = (u32::try_from(position), u32::try_from(self.outer)) else {
            self.is_refused = true;
            return;
        };
        let watched = Watched {
            list,
            other,
            position,
            outer,
        };
        self.is_refused |= self.items.push(watched).is_err();
    }

    fn put_pair(&mut self, a: u32, b: u32, position: usize) {
        if a != b {
            self.put(list_of(a, STARTS), b, position);
            self.put(list_of(b, ENDS), a, position);
        }
    }

    /// Watches an edge or a denied edge. In version 1 it has others beside it only under an And.
    fn put_edge(&mut self, a: u32, b: u32, position: usize) {
        self.put(list_of(a, STARTS), b, position);
        self.put(list_of(b, ENDS), a, position);
        let is_alone = matches!(self.version, Version::One) && position >= self.and_end;
        if !self.is_small && !is_alone {
            self.put(list_of(a, JOINT), b, position);
            self.put(list_of(b, JOINT), a, position);
        }
    }

    /// Watches the pair that two literals of a side join. A node that is both ends joins nothing new.
    fn put_joined(&mut self, first: Literal<u32>, second: Literal<u32>, position: usize) {
        match (first, second) {
            (Literal::Edge(a, _), Literal::Edge(_, d)) => self.put_pair(a, d, position),
            (Literal::Edge(a, b), Literal::NoEdge(c, d)) => {
                self.put_pair(a, c, position);
                self.put_pair(d, b, position);
            }
            _ => {}
        }
    }

    /// Watches the pairs that the literals of the Or at `p` join: in version 2 its right side asserts that the left one is
    /// false, too.
    fn put_leaves(&mut self, rows: &[Row<u32>], p: usize) {
        let denied = literal_at(rows, true, p.saturating_add(1));
        let own = literal_at(rows, false, p.saturating_add(2));
        if let (Some(denied), Some(own), Version::Two) = (denied, own, self.version) {
            self.put_joined(denied, own, p);
            self.put_joined(own, denied, p);
        }
    }

    fn put_row(&mut self, rows: &[Row<u32>], row: Row<u32>, position: usize) {
        match row.kind {
            RowKind::Lit(Literal::Node(a) | Literal::NoNode(a)) => {
                self.put(list_of(a, OWN), a, position);
            }
            RowKind::Lit(Literal::Edge(a, b) | Literal::NoEdge(a, b)) => {
                self.put_edge(a, b, position);
            }
            RowKind::Or if self.is_small => self.put_leaves(rows, position),
            RowKind::And => self.and_end = self.and_end.max(position.saturating_add(row.skip)),
            RowKind::Or | RowKind::True | RowKind::False => {}
        }
    }

    /// Puts what the row is watched for, where it is within an Or.
    fn look_at(&mut self, rows: &[Row<u32>], position: usize) {
        if position >= rows.len() {
            return;
        }
        let row = rows[position];
        if position >= self.end {
            self.outer = position;
            self.end = end_of(row, position);
            self.is_small = row.skip <= SMALL;
            self.and_end = 0;
        }
        if position < self.end {
            self.put_row(rows, row, position);
        }
    }
}

/// By what all are sorted: the list. Those of one list keep the order of their positions.
fn list_key(watched: &Watched) -> u32 {
    watched.list
}

/// Puts where each of so many lists begins among these, which are in order of their lists, with one place more for the
/// end. Returns whether memory is refused.
fn put_starts(items: &[Watched], lists: usize, starts: &mut Vec<usize>) -> bool {
    for k in 0..items.len() {
        for _ in starts.len()..(items[k].list as usize).saturating_add(1).min(lists) {
            if starts.push(k).is_err() {
                return true;
            }
        }
    }
    for _ in starts.len()..lists.saturating_add(1) {
        if starts.push(items.len()).is_err() {
            return true;
        }
    }
    false
}

impl Watch {
    /// No list.
    pub(crate) fn empty(alloc: Global) -> Watch {
        Watch {
            starts: Vec::new(alloc),
            items: Vec::new(alloc),
            is_refused: false,
        }
    }

    pub(crate) fn is_empty(&self) -> bool {
        self.starts.is_empty()
    }

    /// What the Ors of these rows depend on in this version, over so many nodes.
    pub(crate) fn new(alloc: Global, rows: &[Row<u32>], nodes: u32, version: Version) -> Watch {
        let mut watching = Watching {
            version,
            items: Vec::new(alloc),
            outer: 0,
            end: 0,
            is_small: false,
            and_end: 0,
            is_refused: false,
        };
        for p in 0..rows.len() {
            watching.look_at(rows, p);
        }
        let mut is_refused = watching.is_refused;
        let mut items = watching.items;
        is_refused |= items.sort_by_key(list_key).is_err();
        let mut starts = Vec::new(alloc);
        is_refused |= put_starts(&items, LISTS as usize * nodes as usize, &mut starts);
        Watch {
            starts,
            items,
            is_refused,
        }
    }

    /// The places of the list.
    pub(crate) fn places(&self, list: u32) -> (usize, usize) {
        let list = list as usize;
        let next = list.saturating_add(1);
        if next < self.starts.len() {
            (self.starts[list], self.starts[next])
        } else {
            (0, 0)
        }
    }

    /// What is at this place.
    pub(crate) fn watched(&self, place: usize) -> Option<Watched> {
        if place < self.items.len() {
            Some(self.items[place])
        } else {
            None
        }
    }
}
