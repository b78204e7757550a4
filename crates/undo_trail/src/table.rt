ghost use Rattle.std.specs.Prelude.{◌≡◌, ◌≢◌, ◌<◌, ◌≤◌, ◌+◌, ◌-◌, ◌*◌, ◌^◌, ◌++◌, ℕ, false, ◌∷◌, length, take, slice_range, IfOk, OnOk, OnErr, MatchBool};
ghost use Rattle.undo_trail.specs.Bits.{column};
ghost use Rattle.undo_trail.specs.BitTable.{clear_table, tables, bit_now, IsSameTable, Extends, HasSet, HasJoined, IsBitTable};

use super::mark::Mark;
use super::steps::Steps;
use super::trail::{Change, or_into, put, restore};
use pc_common::Memory;
use std::alloc::Global;
use std::marker::Model;
use std::sync::ledger::Ledger;

/// Rows of words that hold bits, and the trail of their changes.
pub struct UndoTable {
    rows: usize,
    words: usize,
    table: Vec<u64>,
    trail: Vec<Change>,
}

// By hand: docs/DECISIONS.md, "Drops are written by hand".
impl Drop for UndoTable {
    fn drop(self) {
        let UndoTable {
            rows: _,
            words: _,
            table: _,
            trail: _,
        } = self;
    }
}

impl Model for UndoTable {
    ghost use Rattle.undo_trail.specs.BitTable.{BitTable};
    ghost use Rattle.undo_trail.specs.Trail.{table_of, IsTrail};
    ghost use Rattle.std.specs.Prelude.{◌<◌, ◌*◌, ◌-◌, ◌^◌, vec_capacity, vec_len};

    ghost Value = { BitTable };

    ghost view = { λ s. table_of s.rows s.words (vec_capacity s.trail - vec_len s.trail) s.trail.items s.table.items };

    ghost invariant = { λ s. (s.rows * s.words < 2 ^ 32) × IsTrail (s.rows * s.words) s.trail.items s.table.items };
}

impl UndoTable {
    /// A table with all bits clear: `rows` rows of `words` words. Takes memory for its words, of which there
    /// are fewer than 2^32.
    pub fn new(alloc: Global, rows: usize, words: usize) -> Result<UndoTable, Memory>
        requires { rows * words < 2 ^ 32 }
        ensures value { IfOk result (λ t. t ≡ clear_table rows words t.room) }
        ensures clear { IfOk result (λ t. (r c : ℕ) → bit_now t r c ≡ false) }
    {
        Ok(UndoTable {
            rows,
            words,
            table: vec![in alloc; 0; rows * words]?,
            trail: Vec::new(alloc),
        })
    }

    /// Whether the bit in row `r` and column `c` is set. Takes no memory.
    pub fn bit(&self, r: usize, c: usize) -> bool
        requires row_in { r < self.now.rows }
        requires column_in { c < 64 * self.now.words }
        ensures { result ≡ bit_now self.now r c }
    {
        self.table[r * self.words + c / 64] >> (c % 64) & 1 == 1
    }

    /// The words of row `r`. Takes no memory.
    pub fn row(&self, r: usize) -> &[u64]
        requires { r < self.now.rows }
        ensures words { result.now ≡ slice_range self.now.now (r * self.now.words)
            (r * self.now.words + self.now.words) }
        ensures len { length result.now ≡ self.now.words }
        ensures bound { self.now.words < 2 ^ 32 }
        ensures columns { (c : ℕ) → c < 64 * self.now.words → column result.now c ≡ bit_now self.now r c }
    {
        let at = r * self.words;
        &self.table[at..at + self.words]
    }

    /// For how many changed words more the trail has room. Takes no memory.
    pub fn room(&self) -> usize
        ensures { result ≡ self.now.room }
    {
        self.trail.capacity().saturating_sub(self.trail.len())
    }

    /// Takes the trail's room for so many changed words more. `Memory` comes where it is refused; then nothing
    /// has changed.
    pub fn reserve(&mut self, changes: usize) -> Result<(), Memory>
        ensures same { IsSameTable self.old self.new }
        ensures room { OnOk result (changes ≤ self.new.room) }
        ensures err { OnErr result (self.new ≡ self.old) }
    {
        self.trail.reserve(changes)?;
        Ok(())
    }

    /// Sets the bit in row `r` and column `c`, where the trail has room for one word. Returns whether it was
    /// clear. Takes no memory.
    pub fn set_bit_reserved(&mut self, r: usize, c: usize) -> bool
        requires row_in { r < self.old.rows }
        requires column_in { c < 64 * self.old.words }
        requires room { 0 < self.old.room }
        ensures set { HasSet self.old self.new r c }
        ensures trail { Extends self.old self.new 1 }
        ensures room { self.old.room ≤ self.new.room + 1 }
        ensures changed { MatchBool result (self.new.now ≢ self.old.now) (IsSameTable self.old self.new) }
    {
        let place = r * self.words + c / 64;
        let word = self.table[place] | 1 << (c % 64);
        put(&mut self.table, &mut self.trail, place, word)
    }

    /// Sets the bit in row `r` and column `c`. Returns whether it was clear. `Memory` comes where the trail
    /// has no room for one more word; then nothing has changed.
    pub fn set_bit(&mut self, r: usize, c: usize) -> Result<bool, Memory>
        requires row_in { r < self.old.rows }
        requires column_in { c < 64 * self.old.words }
        ensures set { OnOk result (HasSet self.old self.new r c) }
        ensures trail { OnOk result (Extends self.old self.new 1) }
        ensures changed { IfOk result (λ b. MatchBool b (self.new.now ≢ self.old.now) (IsSameTable self.old self.new)) }
        ensures err { OnErr result (self.new ≡ self.old) }
    {
        self.reserve(1)?;
        Ok(self.set_bit_reserved(r, c))
    }

    /// Puts the bits of row `src` into row `dst`, where the trail has room for the words of a row. Returns
    /// whether a bit changed. Takes no memory.
    pub fn or_row_reserved(&mut self, dst: usize, src: usize) -> bool
        requires dst_in { dst < self.old.rows }
        requires src_in { src < self.old.rows }
        requires room { self.old.words ≤ self.old.room }
        ensures row { HasJoined self.old self.new dst src }
        ensures trail { Extends self.old self.new self.old.words }
        ensures room { self.old.room ≤ self.new.room + self.old.words }
        ensures changed { MatchBool result (self.new.now ≢ self.old.now) (IsSameTable self.old self.new) }
    {
        let to = dst * self.words;
        let from = src * self.words;
        or_into(&mut self.table, &mut self.trail, to, from, self.words)
    }

    /// Puts the bits of row `src` into row `dst`. Returns whether a bit changed. `Memory` comes where the
    /// trail has no room for the words of a row; then nothing has changed.
    pub fn or_row(&mut self, dst: usize, src: usize) -> Result<bool, Memory>
        requires dst_in { dst < self.old.rows }
        requires src_in { src < self.old.rows }
        ensures row { OnOk result (HasJoined self.old self.new dst src) }
        ensures trail { OnOk result (Extends self.old self.new self.old.words) }
        ensures changed { IfOk result (λ b. MatchBool b (self.new.now ≢ self.old.now) (IsSameTable self.old self.new)) }
        ensures err { OnErr result (self.new ≡ self.old) }
    {
        self.reserve(self.words)?;
        Ok(self.or_row_reserved(dst, src))
    }

    /// The present moment, to go back to. Takes no memory.
    pub fn mark(&self) -> Mark
        ensures last { result ≡ length self.now.past }
        ensures table { IsBitTable self.now }
    {
        Mark::from_changes(self.trail.len())
    }

    /// Gives back the words as they were at `mark`, which and the earlier marks stay. Each word put back is
    /// one step. Takes no memory.
    pub fn undo<L: Ledger>(&mut self, mark: Mark, steps: &mut Steps<L>)
        requires { mark < length (tables self.old) }
        ensures rows { self.new.rows ≡ self.old.rows }
        ensures words { self.new.words ≡ self.old.words }
        ensures tables { tables self.new ≡ take (mark + 1) (tables self.old) }
        ensures cost { steps.new ≡ steps.old + (length self.old.past - mark) }
    {
        let keep = mark.changes();
        restore(&mut self.table, &self.trail, keep, steps);
        self.trail.truncate(keep);
    }
}
