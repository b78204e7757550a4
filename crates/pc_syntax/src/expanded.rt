ghost use Rattle.pc_syntax.specs.Written.{written};
ghost use Rattle.pc_syntax.specs.Expansion.{IsExpanded};
ghost use Rattle.pc_syntax.specs.LawsOfFormulas.{IsExpanded-prop};

use super::formula::Formula;

/// A formula with each macro in its place: it has no `Expand`.
pub struct Expanded {
    pub body: Formula,
    pub ghost expanded: { IsExpanded (written body) } by { IsExpanded-prop (written body) },
}

// By hand: docs/DECISIONS.md, "Drops are written by hand".
impl Drop for Expanded {
    fn drop(self) {
        let Expanded { body: _ } = self;
    }
}
