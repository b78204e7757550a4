ghost use Rattle.std.specs.Prelude.{◌≡◌};
ghost use Rattle.tree_check.specs.Sides.{left_side, right_side};

use pc_ground::Version;

/// What a branch asserts once a split has put it in its parent's place.
#[derive(Clone, Copy)]
pub(crate) struct Side {
    /// Whether the split was under the sign `~`, so that the side is one of the negated tree.
    pub(crate) negated: bool,
    /// Where the side's root stands.
    pub(crate) root: usize,
    /// Where the root of the other side stands, whose negation is asserted first: that side was refuted before.
    pub(crate) denied: Option<usize>,
}

impl Side {
    /// The left side of a split. Takes no memory.
    pub(crate) fn left(negated: bool, root: usize) -> Side
        ensures { result ≡ left_side negated root }
    {
        Side {
            negated,
            root,
            denied: None,
        }
    }

    /// The right side of a split, whose left side has its root at `left`. Takes no memory.
    pub(crate) fn right(version: Version, negated: bool, left: usize, root: usize) -> Side
        ensures { result ≡ right_side version negated left root }
    {
        let denied = match version {
            Version::One => None,
            Version::Two => Some(left),
        };
        Side {
            negated,
            root,
            denied,
        }
    }
}
