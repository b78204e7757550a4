use std::alloc::Global;

/// Sets of levels: of a part of the search that failed the *conflict set*, which are the levels whose splits took
/// part in its failure (Prosser 1993). One set is at hand; those of left sides wait while their right sides are
/// searched, the newest last.
#[derive(Drop)]
pub(crate) struct ConflictSets {
    /// The levels of the set at hand, each once.
    levels: Vec<usize>,
    /// For each level the number of the last set at hand that it was put into, or 0.
    stamps: Vec<u64>,
    /// The number of the set at hand, from 1.
    number: u64,
    /// The levels of the sets that wait.
    waiting: Vec<usize>,
    /// Whether memory was refused to a set.
    pub(crate) is_refused: bool,
}

impl ConflictSets {
    /// An empty set at hand, and none that waits.
    pub(crate) fn new(alloc: Global) -> ConflictSets {
        ConflictSets {
            levels: Vec::new(alloc),
            stamps: Vec::new(alloc),
            number: 1,
            waiting: Vec::new(alloc),
            is_refused: false,
        }
    }

    /// Empties the set at hand.
    pub(crate) fn clear(&mut self) {
        self.levels.clear();
        self.number = self.number.saturating_add(1);
    }

    /// Whether the level is in the set at hand.
    pub(crate) fn has(&self, level: usize) -> bool {
        level < self.stamps.len() && self.stamps[level] == self.number
    }

    /// Puts the level into the set at hand. Level 0, the whole tree, takes part in each failure, and is not put there.
    pub(crate) fn put(&mut self, level: usize) {
        if level == 0 || self.has(level) {
            return;
        }
        if level >= self.stamps.len() {
            self.is_refused |= self.stamps.resize(level.saturating_add(1), 0).is_err();
        }
        if level < self.stamps.len() {
            self.stamps[level] = self.number;
        }
        self.is_refused |= self.levels.push(level).is_err();
    }

    /// How many levels were put into the set at hand.
    pub(crate) fn len(&self) -> usize {
        self.levels.len()
    }

    /// The level that was put into the set at hand after `k` others: 0 where there are not so many.
    pub(crate) fn level(&self, k: usize) -> usize {
        if k < self.levels.len() {
            self.levels[k]
        } else {
            0
        }
    }

    /// Lets the levels of the set at hand wait that are below `end`. Returns how many levels waited before.
    pub(crate) fn set_aside(&mut self, end: usize) -> usize {
        let waited = self.waiting.len();
        for k in 0..self.levels.len() {
            let level = self.level(k);
            if level < end {
                self.is_refused |= self.waiting.push(level).is_err();
            }
        }
        waited
    }

    /// Puts the last set that waits into the set at hand, where so many levels waited before it.
    pub(crate) fn unite(&mut self, waited: usize) {
        for _ in waited..self.waiting.len() {
            if let Some(level) = self.waiting.pop() {
                self.put(level);
            }
        }
    }

    /// Lets the last set that waits go, where so many levels waited before it.
    pub(crate) fn discard(&mut self, waited: usize) {
        self.waiting.truncate(waited);
    }
}
