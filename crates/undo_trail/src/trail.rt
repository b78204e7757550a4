ghost use Rattle.std.specs.Prelude.{◌≡◌, ◌≢◌, ◌<◌, ◌≤◌, ◌+◌, ◌-◌, ◌⊎◌, ℕ, length, drop, vec_len, vec_capacity, slice_index, slice_set, All, MatchBool};
ghost use Rattle.undo_trail.specs.Trail.{back, JoinsWords, Grows};

use super::steps::Steps;
use std::sync::ledger::Ledger;

/// A word that was changed: its place in the table and what it held.
#[derive(Clone, Copy)]
pub struct Change {
    pub place: usize,
    pub old: u64,
}

/// Makes `word` stand at `place`, with the change after the trail, which has room for it. Returns whether
/// another word stood there.
pub fn put(table: &mut [u64], trail: &mut Vec<Change>, place: usize, word: u64) -> bool
    requires inside { place < length table.old }
    requires room { vec_len trail.old < vec_capacity trail.old }
    ensures set { table.new ≡ slice_set table.old place word }
    ensures grows { Grows trail.old.items table.old trail.new.items table.new 1 }
    ensures changed { MatchBool result (table.new ≢ table.old)
        ((table.new ≡ table.old) × (trail.new.items ≡ trail.old.items)) }
    ensures capacity { vec_capacity trail.old ≤ vec_capacity trail.new }
    ensures len { vec_len trail.new ≤ vec_len trail.old + 1 }
{
    let old = table[place];
    if old == word {
        return false;
    }
    trail.push(Change { place, old }).unwrap();
    table[place] = word;
    true
}

/// Puts the bits of the `words` words at `from` into those at `to`. The trail has room for all of them.
/// Returns whether a word changed.
pub fn or_into(
    table: &mut [u64],
    trail: &mut Vec<Change>,
    to: usize,
    from: usize,
    words: usize,
) -> bool
    requires to_in { to + words ≤ length table.old }
    requires from_in { from + words ≤ length table.old }
    requires apart { (from ≡ to) ⊎ ((from + words ≤ to) ⊎ (to + words ≤ from)) }
    requires room { words ≤ vec_capacity trail.old - vec_len trail.old }
    ensures joined { JoinsWords table.old table.new to from words }
    ensures others { (p : ℕ) → (p < to) ⊎ (to + words ≤ p) → slice_index table.new p ≡ slice_index table.old p }
    ensures grows { Grows trail.old.items table.old trail.new.items table.new words }
    ensures changed { MatchBool result (table.new ≢ table.old)
        ((table.new ≡ table.old) × (trail.new.items ≡ trail.old.items)) }
    ensures capacity { vec_capacity trail.old ≤ vec_capacity trail.new }
    ensures len { vec_len trail.new ≤ vec_len trail.old + words }
{
    let mut changed = false;
    for k in 0..words {
        let word = table[to + k] | table[from + k];
        changed |= put(table, trail, to + k, word);
    }
    changed
}

/// Puts back the words that the changes from `keep` on took away, the newest first.
pub fn restore<L: Ledger>(table: &mut [u64], trail: &[Change], keep: usize, steps: &mut Steps<L>)
    requires live { keep ≤ length trail.now }
    requires inside { All (λ c. c.place < length table.old) trail.now }
    ensures table { table.new ≡ back (drop keep trail.now) table.old }
    ensures cost { steps.new ≡ steps.old + (length trail.now - keep) }
{
    let mut at = trail.len();
    while at > keep {
        at -= 1;
        let change = trail[at];
        table[change.place] = change.old;
        steps.tick();
    }
}
