/// It is an asserted Or that no split has taken, and that is not true for good on this branch.
pub(crate) const PENDING: u16 = 1;

/// The Or is one of the tree's negation.
pub(crate) const NEGATED: u16 = 2;

/// It is true now.
const HOLDS: u16 = 4;

/// Whether it is true now may have changed since it was asked.
pub(crate) const TRUTH_STALE: u16 = 8;

/// Its left side is closed at once, which it stays on this branch.
pub(crate) const LEFT_CLOSED: u16 = 16;

/// So is its right side.
pub(crate) const RIGHT_CLOSED: u16 = 128;

/// The search need not ask again, since enough of its sides are closed: one in version 1, both in version 2.
pub(crate) const SETTLED: u16 = 32;

/// That may have come about since it was asked.
pub(crate) const SIDES_STALE: u16 = 64;

/// Of its alternatives one is left, or none: the others are as good as closed.
pub(crate) const ONE_LEFT: u16 = 256;

pub(crate) const NONE_LEFT: u16 = 512;

/// How many are left may have changed since they were counted.
pub(crate) const COUNT_STALE: u16 = 1024;

/// One of its sides is closed at once.
pub(crate) const CLOSED: u16 = LEFT_CLOSED | RIGHT_CLOSED;

/// One of its sides is closed at once, or may be.
pub(crate) const READY: u16 = CLOSED | SIDES_STALE;

/// At most one of its alternatives is left, or may be.
pub(crate) const FORCED: u16 = ONE_LEFT | NONE_LEFT | COUNT_STALE;

/// The state of a position as a choice: whether it is a pending Or of the first open branch, whether it is true now,
/// and which of its sides are closed at once. It is a hint, and tested before a split.
///
/// It is the set of the properties above that hold, a bit each, since a search copies it all the time.
#[derive(Clone, Copy)]
pub(crate) struct Standing {
    bits: u16,
}

impl Standing {
    /// That of a position which is no choice.
    pub(crate) fn none() -> Standing {
        Standing { bits: 0 }
    }

    /// That of an Or which was asserted just now.
    pub(crate) fn fresh(negated: bool) -> Standing {
        Standing {
            bits: PENDING | TRUTH_STALE | SIDES_STALE | COUNT_STALE,
        }
        .with(NEGATED, negated)
    }

    /// Whether one of these properties holds.
    pub(crate) fn has(self, properties: u16) -> bool {
        self.bits & properties != 0
    }

    /// The same, with the properties or without them.
    fn with(self, properties: u16, is_in: bool) -> Standing {
        let bits = if is_in {
            self.bits | properties
        } else {
            self.bits & !properties
        };
        Standing { bits }
    }

    /// The same, where more of it may be closed now; and where its truth may have changed too.
    pub(crate) fn stale(self, in_truth: bool) -> Standing {
        self.with(SIDES_STALE | COUNT_STALE, true)
            .with(TRUTH_STALE, in_truth | self.has(TRUTH_STALE))
    }

    /// The same, where all of what is known of its sides is to be asked again in another way.
    pub(crate) fn renewed(self) -> Standing {
        self.with(CLOSED | SETTLED, false)
            .with(SIDES_STALE, self.has(PENDING))
    }

    /// The same, with whether it is true now.
    pub(crate) fn told(self, holds: bool) -> Standing {
        self.with(TRUTH_STALE, false).with(HOLDS, holds)
    }

    /// The same, with whether one of its sides is closed at once, and whether enough of them are.
    pub(crate) fn asked(self, left_closed: bool, right_closed: bool, settled: bool) -> Standing {
        self.with(SIDES_STALE, false)
            .with(LEFT_CLOSED, left_closed)
            .with(RIGHT_CLOSED, right_closed)
            .with(SETTLED, settled)
    }

    /// The same, with how many alternatives are left, up to two.
    pub(crate) fn counted(self, left: usize) -> Standing {
        self.with(COUNT_STALE, false)
            .with(ONE_LEFT, left == 1)
            .with(NONE_LEFT, left == 0)
    }

    pub(crate) fn is_same(self, other: Standing) -> bool {
        self.bits == other.bits
    }

    /// Whether it may be a choice, as far as is known.
    pub(crate) fn is_open(self) -> bool {
        self.has(PENDING) & (self.has(TRUTH_STALE) | !self.has(HOLDS))
    }

    /// Whether it may be a choice of which one of these properties holds.
    pub(crate) fn is_open_with(self, properties: u16) -> bool {
        self.is_open() & self.has(properties)
    }
}
