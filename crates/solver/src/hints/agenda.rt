ghost use Rattle.std.specs.Prelude.{◌≡◌, All, length};
ghost use Rattle.solver.specs.Below.{IsRowBelow};

use super::alternatives::count_open;
use super::bits::Bits;
use super::changes::{Changes, Others};
use super::failures::Failures;
use super::standing::{
    COUNT_STALE, FORCED, NEGATED, NONE_LEFT, ONE_LEFT, PENDING, READY, Standing, TRUTH_STALE,
};
use super::truth::{Truth, or_truth};
use super::walk::skip_at;
use super::watch::{ENDS, JOINT, OWN, STARTS, Watch, Watched, end_of_ors, list_of};
use crate::tree::numbered_tree::NumberedTree;
use crate::tree::ors::is_or;
use crate::tree::place::Place;
use order_graph::{Clash, OrderGraph};
use pc_common::Memory;
use pc_ground::{Row, Version};
use refutation::Cut;
use std::alloc::Global;
use std::mem;

/// What stood at a position before a change.
#[derive(Clone, Copy)]
struct Change {
    position: usize,
    standing: Standing,
}

/// Where the search looks next: the pending Ors of the first open branch, each with its standing, so that a turn looks
/// only where something changed. No clause speaks of it: what it proposes is tested, and where it proposes nothing all
/// rows are looked at.
#[derive(Drop)]
pub(crate) struct Agenda {
    watch: Watch,
    standings: Vec<Standing>,
    /// The pending Ors.
    pending: Bits,
    open: Bits,
    /// Those that may be a choice with a side that is closed at once.
    pub(crate) ready: Bits,
    forced: Bits,
    /// Room for the truth of a part's positions.
    truths: Vec<bool>,
    /// What the branch changed, the newest last, and how much of it there was at each split that waits.
    trail: Vec<Change>,
    marks: Vec<usize>,
    /// How many asserted positions were looked at.
    seen: usize,
    /// Which splits took part in what failed so far.
    failures: Failures,
    changes: Changes,
    /// Whether memory was refused to the trail or the marks.
    is_refused: bool,
}

impl Agenda {
    /// That of a search over these rows, before the tree is asserted.
    pub(crate) fn new(alloc: Global, rows: &[Row<u32>]) -> Agenda {
        let count = end_of_ors(rows);
        let mut agenda = Agenda {
            watch: Watch::empty(alloc),
            standings: Vec::new(alloc),
            pending: Bits::new(alloc),
            open: Bits::new(alloc),
            ready: Bits::new(alloc),
            forced: Bits::new(alloc),
            truths: Vec::new(alloc),
            trail: Vec::new(alloc),
            marks: Vec::new(alloc),
            seen: 0,
            failures: Failures::new(alloc, count),
            changes: Changes::new(alloc),
            is_refused: false,
        };
        agenda.is_refused |= agenda.standings.resize(count, Standing::none()).is_err();
        agenda.is_refused |= agenda.pending.make_room(count);
        agenda.is_refused |= agenda.open.make_room(count);
        agenda.is_refused |= agenda.ready.make_room(count);
        agenda.is_refused |= agenda.forced.make_room(count);
        agenda.is_refused |= agenda.truths.resize(count, false).is_err();
        agenda
    }

    /// Whether memory was refused to any hint. Then that hint went without what it was to keep.
    fn is_refused(&self) -> bool {
        self.is_refused
            | self.watch.is_refused
            | self.changes.is_refused
            | self.failures.is_refused()
    }

    /// What is known of the position.
    pub(crate) fn standing(&self, position: usize) -> Standing {
        if position < self.standings.len() {
            self.standings[position]
        } else {
            Standing::none()
        }
    }

    /// Sets the standing of the position, and whether it is in each of the four sets.
    fn set(&mut self, position: usize, standing: Standing) {
        if position >= self.standings.len() {
            return;
        }
        self.standings[position] = standing;
        self.pending.put(position, standing.has(PENDING));
        self.open.put(position, standing.is_open());
        self.ready.put(position, standing.is_open_with(READY));
        self.forced.put(position, standing.is_open_with(FORCED));
    }

    /// Changes the standing of the position. If a split waits, what stood there goes on the trail: undone newest first,
    /// the oldest of a position stands again.
    pub(crate) fn change(&mut self, position: usize, standing: Standing) {
        let before = self.standing(position);
        if before.is_same(standing) {
            return;
        }
        if !self.marks.is_empty() {
            let change = Change {
                position,
                standing: before,
            };
            self.is_refused |= self.trail.push(change).is_err();
        }
        self.set(position, standing);
    }

    /// The Or is split by this step, and its right side waits. The first split makes the lists of what a literal changes:
    /// before it no standing is known that a literal could change. Returns `Memory` where memory was refused to a hint: so
    /// what is split is never chosen by a hint that lacks something.
    pub(crate) fn split(
        &mut self,
        alloc: Global,
        tree: &NumberedTree,
        version: Version,
        place: Place,
        graph: &OrderGraph,
        step: usize,
    ) -> Result<(), Memory>
        requires { graph.now.nodes ≡ length tree.now.nodes }
    {
        if self.is_refused() {
            return Err(Memory);
        }
        if self.watch.is_empty() {
            self.watch = Watch::new(alloc, tree.rows(), tree.count(), version);
            self.changes.begin(tree.count() as usize);
            self.changes.look(tree.count(), graph);
        }
        self.change(place.position, Standing::none());
        self.failures.split(place, graph, step);
        self.changes.split();
        self.is_refused |= self.marks.push(self.trail.len()).is_err();
        Ok(())
    }

    /// Undoes what came after the last split that waits, before which so many positions were asserted.
    pub(crate) fn go_back(&mut self, count: usize) {
        let Some(length) = self.marks.pop() else {
            return;
        };
        for _ in length..self.trail.len() {
            if let Some(change) = self.trail.pop() {
                self.set(change.position, change.standing);
            }
        }
        self.changes.go_back();
        self.seen = count;
    }

    /// Looks at what is asserted on this branch since the side was to be entered: at the literals, and at the positions, of
    /// which each Or is a choice.
    pub(crate) fn note(&mut self, tree: &NumberedTree, graph: &OrderGraph, asserted: &[Place])
        requires { graph.now.nodes ≡ length tree.now.nodes }
    {
        self.touch_all(tree, graph);
        for k in self.seen..asserted.len() {
            let place = asserted[k];
            if is_or(tree, place) {
                self.failures.note_or(place.position);
                self.change(place.position, Standing::fresh(place.negated));
            }
        }
        self.seen = asserted.len();
    }

    /// Makes stale what the literals that were asserted since the last call may have changed.
    fn touch_all(&mut self, tree: &NumberedTree, graph: &OrderGraph)
        requires { graph.now.nodes ≡ length tree.now.nodes }
    {
        if self.watch.is_empty() {
            return;
        }
        self.changes.look(tree.count(), graph);
        let mut from = 0;
        for _ in 0..tree.count() {
            let Some(node) = self.changes.next_touched(from) else {
                return;
            };
            self.touch_node(tree.rows(), node);
            from = node.saturating_add(1);
        }
    }

    /// Makes stale what depends on pairs with the node that may have changed.
    fn touch_node(&mut self, rows: &[Row<u32>], node: u32) {
        let k = node as usize;
        let has_grown = self.changes.grown.has(k);
        let is_starting = self.changes.starting.has(k);
        if has_grown {
            self.touch_list(rows, list_of(node, STARTS), Others::Reached, true);
            self.touch_list(rows, list_of(node, ENDS), Others::Closing, false);
        }
        if is_starting {
            self.touch_list(rows, list_of(node, STARTS), Others::All, false);
        }
        if has_grown | is_starting {
            self.touch_list(rows, list_of(node, JOINT), Others::All, false);
        }
        if self.changes.named.has(k) {
            self.touch_list(rows, list_of(node, OWN), Others::All, true);
        }
        if self.changes.denied.has(k) {
            self.touch_list(rows, list_of(node, STARTS), Others::All, false);
            self.touch_list(rows, list_of(node, ENDS), Others::All, false);
        }
    }

    /// Makes the pending Or that this is within stale: its closed sides, and with `in_truth` its truth.
    fn touch(&mut self, rows: &[Row<u32>], watched: Watched, in_truth: bool) {
        let position = watched.position as usize;
        if let Some(p) = self.pending.last_up_to(position, watched.outer as usize) {
            if position < p.saturating_add(skip_at(rows, p)) {
                let standing = self.standing(p).stale(in_truth);
                self.change(p, standing);
            }
        }
    }

    /// The same for each pair on the list whose other node is among these.
    fn touch_list(&mut self, rows: &[Row<u32>], list: u32, others: Others, in_truth: bool) {
        let (from, end) = self.watch.places(list);
        for at in from..end {
            let Some(watched) = self.watch.watched(at) else {
                return;
            };
            if self.changes.has_other(others, watched.other) {
                self.touch(rows, watched, in_truth);
            }
        }
    }

    /// The standing of the Or with its truth as it is now: it is asked again where it is stale.
    pub(crate) fn look(&mut self, rows: &[Row<u32>], graph: &OrderGraph, p: usize) -> Standing
        requires { All (IsRowBelow graph.now.nodes) rows.now }
    {
        let before = self.standing(p);
        if !before.has(TRUTH_STALE) {
            return before;
        }
        match or_truth(rows, graph, &mut self.truths, before.has(NEGATED), p) {
            Truth::No => before.told(false),
            Truth::Now => before.told(true),
            Truth::ForGood => Standing::none(),
        }
    }

    /// The same, and keeps it.
    fn refresh(&mut self, rows: &[Row<u32>], graph: &OrderGraph, p: usize) -> Standing
        requires { All (IsRowBelow graph.now.nodes) rows.now }
    {
        let standing = self.look(rows, graph, p);
        self.change(p, standing);
        standing
    }

    /// The first choice.
    pub(crate) fn first_open(&mut self, rows: &[Row<u32>], graph: &OrderGraph) -> Option<Place>
        requires { All (IsRowBelow graph.now.nodes) rows.now }
    {
        let mut from = 0;
        for _ in 0..rows.len() {
            let position = self.open.first_from(from)?;
            let standing = self.refresh(rows, graph, position);
            if standing.is_open() {
                return Some(Place {
                    negated: standing.has(NEGATED),
                    position,
                });
            }
            from = position.saturating_add(1);
        }
        None
    }

    /// A leaf closes the side that was entered last by this clash, and the steps so far end with it. From the first one on,
    /// closed sides are asked in another way. Returns `Memory` where memory was refused to a hint: so which steps are needed
    /// is never told by a hint that lacks something.
    pub(crate) fn learn(
        &mut self,
        clash: &Clash,
        graph: &OrderGraph,
        end: usize,
    ) -> Result<(), Memory> {
        if !self.has_failed() {
            self.renew();
        }
        self.failures.learn(clash, graph, end);
        if self.is_refused() {
            return Err(Memory);
        }
        Ok(())
    }

    /// Hands out which steps are not needed, as far as was learned.
    pub(crate) fn take_cuts(&mut self, alloc: Global) -> Vec<Cut> {
        mem::replace(&mut self.failures.cuts, Vec::new(alloc))
    }

    /// Whether a side has failed.
    pub(crate) fn has_failed(&self) -> bool {
        self.failures.records.failures > 0
    }

    /// Forgets which sides are closed, now and at the splits that wait.
    fn renew(&mut self) {
        for p in 0..self.standings.len() {
            let standing = self.standing(p);
            if standing.has(PENDING) {
                self.set(p, standing.renewed());
            }
        }
        for k in 0..self.trail.len() {
            let Change { position, standing } = self.trail[k];
            let standing = standing.renewed();
            self.trail[k] = Change { position, standing };
        }
    }

    /// The standing of the Or with its alternatives counted: again where they are stale.
    fn count(&mut self, rows: &[Row<u32>], graph: &OrderGraph, p: usize) -> Standing
        requires { All (IsRowBelow graph.now.nodes) rows.now }
    {
        let mut standing = self.look(rows, graph, p);
        if standing.is_open_with(COUNT_STALE) {
            // two leaves are open where no literal would clash
            let left = if skip_at(rows, p) == 3 {
                2
            } else {
                count_open(rows, graph, standing.has(NEGATED), p, 2, true)
            };
            standing = standing.counted(left);
        }
        self.change(p, standing);
        standing
    }

    /// The first choice of which each alternative is as good as closed; if there is none, the first of which each but one
    /// is. No choice has a side with a literal that would clash.
    pub(crate) fn first_forced(&mut self, rows: &[Row<u32>], graph: &OrderGraph) -> Option<Place>
        requires { All (IsRowBelow graph.now.nodes) rows.now }
    {
        let mut forced = None;
        let mut from = 0;
        for _ in 0..rows.len() {
            let Some(position) = self.forced.first_from(from) else {
                return forced;
            };
            from = position.saturating_add(1);
            let standing = self.count(rows, graph, position);
            let negated = standing.has(NEGATED);
            if standing.is_open_with(NONE_LEFT) {
                return Some(Place { negated, position });
            }
            if standing.is_open_with(ONE_LEFT) && forced.is_none() {
                forced = Some(Place { negated, position });
            }
        }
        forced
    }

    /// The Or to split next where a failure is replayed, if one is.
    pub(crate) fn guide(&self) -> Option<Place> {
        self.failures.guide()
    }

    /// The choice with the newest failures, of several the one with the fewest alternatives that are not closed, of several
    /// the one with the most failures, of several the first by position. `first` is the first choice.
    pub(crate) fn newest(&mut self, rows: &[Row<u32>], graph: &OrderGraph, first: Place) -> Place
        requires { All (IsRowBelow graph.now.nodes) rows.now }
    {
        let mut chosen = first;
        let mut newest = self.failures.records.record(first.position);
        let mut count = usize::MAX;
        let mut from = first.position;
        for _ in 0..rows.len() {
            let Some(position) = self.open.first_from(from) else {
                return chosen;
            };
            from = position.saturating_add(1);
            let record = self.failures.records.record(position);
            let is_newer = record.time > newest.time;
            // none has fewer than two open, since none is forced
            if record.time < newest.time
                || (!is_newer && count <= 2 && record.count <= newest.count)
            {
                continue;
            }
            let standing = self.refresh(rows, graph, position);
            if !standing.is_open() {
                continue;
            }
            let negated = standing.has(NEGATED);
            if is_newer {
                count = usize::MAX;
            }
            let limit = count.saturating_add(1);
            let open = count_open(rows, graph, negated, position, limit, false);
            if open < count || (open == count && record.count > newest.count) {
                chosen = Place { negated, position };
                newest = record;
                count = open;
            }
        }
        chosen
    }
}
