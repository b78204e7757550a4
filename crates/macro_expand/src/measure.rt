ghost use Rattle.std.specs.Prelude.{◌≡◌, ◌+◌, max};
ghost use Rattle.macro_expand.specs.Measures.{capped_measure};

use pc_syntax::{MAX_HEIGHT, MAX_SIZE};

/// The size and the height of a formula with its macros followed. What is past a limit counts as one past
/// it, so that macros whose sizes double from each to the next are measured in no time.
#[derive(Clone, Copy)]
pub(crate) struct Measure {
    pub size: u64,
    pub height: u64,
}

impl Measure {
    fn cap(size: u64, height: u64) -> Measure
        ensures { result ≡ capped_measure size height }
    {
        Measure {
            size: size.min(MAX_SIZE + 1),
            height: height.min(MAX_HEIGHT + 1),
        }
    }

    /// An atom, or a list of so many atoms.
    pub(crate) fn atoms(count: usize) -> Measure
        ensures { result ≡ capped_measure (1 + count) 0 }
    {
        Measure::cap((count as u64).saturating_add(1), 0)
    }

    /// A formula of one part.
    pub(crate) fn raise(self) -> Measure
        ensures { result ≡ capped_measure (1 + self.size) (1 + self.height) }
    {
        Measure::cap(self.size.saturating_add(1), self.height.saturating_add(1))
    }

    /// A formula of two parts.
    pub(crate) fn join(self, other: Measure) -> Measure
        ensures { result ≡ capped_measure (1 + (self.size + other.size)) (1 + max self.height other.height) }
    {
        let size = self.size.saturating_add(other.size);
        let height = self.height.max(other.height);
        Measure::cap(size.saturating_add(1), height.saturating_add(1))
    }
}
