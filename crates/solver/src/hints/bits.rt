use std::alloc::Global;

/// A set of numbers below a bound, as bits. It is asked for hints alone, and so no clause speaks of it.
#[derive(Drop)]
pub(crate) struct Bits {
    pub(crate) words: Vec<u64>,
}

impl Bits {
    /// None, and room for none.
    pub(crate) fn new(alloc: Global) -> Bits {
        Bits {
            words: Vec::new(alloc),
        }
    }

    /// Makes room for the numbers below `count`. Returns whether memory is refused.
    pub(crate) fn make_room(&mut self, count: usize) -> bool {
        self.words.resize(count / 64 + 1, 0).is_err()
    }

    /// Puts `k` in, or takes it out.
    pub(crate) fn put(&mut self, k: usize, is_in: bool) {
        let at = k / 64;
        if at < self.words.len() {
            let bit = 1u64 << (k % 64);
            let word = self.words[at];
            self.words[at] = if is_in { word | bit } else { word & !bit };
        }
    }

    /// Takes all numbers out.
    pub(crate) fn clear(&mut self) {
        for k in 0..self.words.len() {
            self.words[k] = 0;
        }
    }

    /// Puts the numbers in that these words have.
    pub(crate) fn put_words(&mut self, words: &[u64]) {
        for k in 0..self.words.len() {
            if k < words.len() {
                self.words[k] |= words[k];
            }
        }
    }

    pub(crate) fn has(&self, k: usize) -> bool {
        let at = k / 64;
        at < self.words.len() && self.words[at] >> (k % 64) & 1 == 1
    }

    /// The lowest number from `from` on.
    pub(crate) fn first_from(&self, from: usize) -> Option<usize> {
        let mut mask = u64::MAX << (from % 64);
        for at in from / 64..self.words.len() {
            let word = self.words[at] & mask;
            if word != 0 {
                let lowest = word.trailing_zeros() as usize;
                return Some(at.wrapping_mul(64).wrapping_add(lowest));
            }
            mask = u64::MAX;
        }
        None
    }

    /// The highest number up to `k`, among those in the words from that of `low` on.
    pub(crate) fn last_up_to(&self, k: usize, low: usize) -> Option<usize> {
        let mut mask = u64::MAX >> (63 - k % 64);
        let top = k / 64;
        for back in 0..=top.saturating_sub(low / 64) {
            let at = top.saturating_sub(back);
            if at < self.words.len() {
                let word = self.words[at] & mask;
                if word != 0 {
                    let highest = 63usize.wrapping_sub(word.leading_zeros() as usize);
                    return Some(at.wrapping_mul(64).wrapping_add(highest));
                }
            }
            mask = u64::MAX;
        }
        None
    }
}
