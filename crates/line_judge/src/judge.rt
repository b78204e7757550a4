ghost use Rattle.std.specs.Prelude.{◌≡◌, ◌↔◌, ◌++◌, List, ℕ, true, false, IfOk};
ghost use Rattle.line_judge.specs.Judges.{JudgeView, GoesOn, Refuses};

use pc_common::Memory;

/// A judge of one kind of text: it takes the lines one after another.
pub trait Judge: Drop {
    /// With which lines a whole text may begin, which lines are one, and which lines the judge took, all of them good.
    ghost view: { Self → JudgeView };

    /// Takes the next line, without its LF, and returns whether a whole text may begin so. Where it returns
    /// false, or `Memory`, nothing is said of the judge any more but that its texts are the same.
    fn step(&mut self, line: &[u8]) -> Result<bool, Memory>
        ensures same_begins { (lines : List (List ℕ)) → (view self.old).begins lines ↔ (view self.new).begins lines }
        ensures same_whole { (lines : List (List ℕ)) → (view self.old).whole lines ↔ (view self.new).whole lines }
        ensures goes { IfOk result (λ good. good ≡ true → GoesOn (view self.old) (view self.new) line.now) }
        ensures refused { IfOk result (λ good. good ≡ false → Refuses (view self.old) line.now) };

    /// Whether the lines so far are a whole text.
    fn is_done(&self) -> bool
        ensures { (lines : List (List ℕ)) → (view self.now).stands lines
            → (result ≡ true) ↔ (view self.now).whole lines };

    /// Lines that were taken and were good begin a whole text.
    ghost stands_begins: { (judge : Self) → (lines : List (List ℕ)) → (view judge).stands lines
        → (view judge).begins lines };

    /// So does a first part of lines that begin one. A law of a trait may cite specs alone, and in this form it needs
    /// no proof there.
    ghost begins_first: { (judge : Self) → (lines more : List (List ℕ)) → (view judge).begins (lines ++ more)
        → (view judge).begins lines };

    /// A whole text begins itself.
    ghost whole_begins: { (judge : Self) → (lines : List (List ℕ)) → (view judge).whole lines
        → (view judge).begins lines };
}
