ghost use Rattle.std.specs.Prelude.{◌≡◌};
ghost use Rattle.lifted_check.specs.Stages.{is_end as is_end_of};

use lifted_facts::FactBranches;

/// How far a lifted text was read.
pub(crate) enum Stage<'a> {
    /// No line.
    Start,
    /// The first line.
    First,
    /// The first two lines.
    Second,
    /// The three lines of the header, and steps that leave these branches open.
    Steps(FactBranches<'a>),
    /// A whole text.
    Ended,
}

// By hand: docs/DECISIONS.md, "Drops are written by hand".
impl Drop for Stage<'_> {
    fn drop(self) {
        match self {
            Stage::Start => {}
            Stage::First => {}
            Stage::Second => {}
            Stage::Steps(_) => {}
            Stage::Ended => {}
        }
    }
}

impl<'a> Stage<'a> {
    /// Whether the text is whole.
    pub(crate) fn is_end(&self) -> bool
        ensures { result ≡ is_end_of self.now }
    {
        matches!(self, Stage::Ended)
    }
}
