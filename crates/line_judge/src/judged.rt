ghost use Rattle.std.specs.Prelude.{◌≡◌, ◌++◌, [], IfOk};
ghost use Rattle.line_judge.specs.Texts.{IsLine};
ghost use Rattle.line_judge.specs.JudgedLines.{IsGood, IsJudged, EachGood, IsEnd, with_lf};

use super::judge::Judge;
use super::line::split_line;
use pc_common::Memory;
use std::alloc::Global;

/// The lines of a text so far, each of which was good, and the beginning of the next.
#[derive(Drop)]
pub(crate) struct Judged<J> {
    judge: J,
    // the line that is still open; it keeps its room from line to line
    part: Vec<u8>,
    // how many lines were taken, at most the greatest u64
    lines: u64,
}

impl<J: Judge> Judged<J> {
    /// No text yet. Takes no memory.
    pub(crate) fn new(alloc: Global, judge: J) -> Judged<J>
        requires { (J.view judge).stands [] }
        ensures { IsGood J.view judge [] result }
    {
        Judged {
            judge,
            part: Vec::new(alloc),
            lines: 0,
        }
    }

    /// Takes the next piece of the text, up to the end of the first line that is refused. Returns whether
    /// there is none. Each byte is looked at once, and only a line that goes over a cut is copied.
    pub(crate) fn read(&mut self, piece: &[u8]) -> Result<bool, Memory>
        ensures { EachGood J.view self.old (λ start text.
            IfOk result (IsJudged J.view start (text ++ piece.now) self.new)) }
    {
        let mut left = piece;
        while let Some((line, rest)) = split_line(left) {
            if !self.end_line(line)? {
                return Ok(false);
            }
            left = rest;
        }
        self.part.extend_from_slice(left)?;
        Ok(true)
    }

    /// The open line ends with these bytes, and is judged. Returns whether it is good. A line that does not
    /// go over a cut is judged where it stands.
    fn end_line(&mut self, end: &[u8]) -> Result<bool, Memory>
        requires { IsLine end.now }
        ensures { EachGood J.view self.old (λ start text.
            IfOk result (IsJudged J.view start (text ++ with_lf end.now) self.new)) }
    {
        self.lines = self.lines.saturating_add(1);
        if self.part.is_empty() {
            return self.judge.step(end);
        }
        self.part.extend_from_slice(end)?;
        let good = self.judge.step(&self.part)?;
        self.part.clear();
        Ok(good)
    }

    /// How many lines were taken, at most the greatest u64. Takes no memory.
    pub(crate) fn lines(&self) -> u64
        ensures { result ≡ self.now.lines }
    {
        self.lines
    }

    /// The judge, where the text is whole: no line is open, and the lines are a whole text. Else the number
    /// of the line that is refused at the text's end, from 1. Takes no memory.
    pub(crate) fn end(self) -> Result<J, u64>
        ensures { EachGood J.view self (λ start text. IsEnd J.view start text result) }
    {
        if self.part.is_empty() && self.judge.is_done() {
            return Ok(self.judge);
        }
        Err(self.lines.saturating_add(1))
    }
}
