ghost use Rattle.std.specs.Prelude.{◌<◌, ◌^◌, ◌++◌, ◌↔◌, [], IsTrue, IsOk, IfOk};
ghost use Rattle.line_judge.specs.Feeds.{HasTaken, EachTaken, IsDecided, IsSettled, IsAnswer};

use super::judge::Judge;
use super::judged::Judged;
use pc_common::Memory;
use std::alloc::Global;

/// A text so far, judged line by line.
#[derive(Drop)]
pub struct Feed<J> {
    judged: Judged<J>,
    refused: bool,
    // how many bytes came, at most the greatest u64
    bytes: u64,
    limit: u64,
}

/// What a text is.
#[derive(Drop)]
pub enum Finished<J> {
    /// A whole text, with the judge that took its lines.
    Whole(J),
    /// The number, from 1, of the first line that is refused. 0 says that the text is longer than the limit.
    Refused(u64),
}

impl<J: Judge> Feed<J> {
    /// No text yet, of at most `limit` bytes, a number below 2^63. Takes no memory.
    pub fn new(alloc: Global, judge: J, limit: u64) -> Feed<J>
        requires stands { (J.view judge).stands [] }
        requires short { limit < 2 ^ 63 }
        ensures { HasTaken J.view judge limit [] result }
    {
        Feed {
            judged: Judged::new(alloc, judge),
            refused: false,
            bytes: 0,
            limit,
        }
    }

    /// Whether nothing more is looked at: a line was refused, or the text is longer than the limit. Takes no
    /// memory.
    pub fn is_settled(&self) -> bool
        ensures is { IsTrue result ↔ IsSettled self.now }
        ensures by_text { EachTaken J.view self.now (λ start limit text.
            IsTrue result ↔ IsDecided (J.view start).begins limit text text) }
    {
        self.refused || self.limit < self.bytes
    }

    /// Takes the next piece of the text. `Memory` comes where the open line or the judge gets none, and never
    /// where the feed is settled, before the piece or by its length: then the piece is only counted.
    pub fn feed(mut self, piece: &[u8]) -> Result<Feed<J>, Memory>
        ensures took { EachTaken J.view self (λ start limit text.
            IfOk result (HasTaken J.view start limit (text ++ piece.now))) }
        ensures settled { IsSettled self → IsOk result }
        ensures sure { EachTaken J.view self (λ start limit text.
            IsDecided (J.view start).begins limit text (text ++ piece.now) → IsOk result) }
    {
        self.bytes = self.bytes.saturating_add(piece.len() as u64);
        if !self.is_settled() {
            self.refused = !self.judged.read(piece)?;
        }
        Ok(self)
    }

    /// What the text is. Takes no memory.
    pub fn finish(self) -> Finished<J>
        ensures { EachTaken J.view self (λ start limit text. IsAnswer J.view start limit text result) }
    {
        if self.limit < self.bytes {
            return Finished::Refused(0);
        }
        if self.refused {
            return Finished::Refused(self.judged.lines());
        }
        match self.judged.end() {
            Ok(judge) => Finished::Whole(judge),
            Err(line) => Finished::Refused(line),
        }
    }
}
