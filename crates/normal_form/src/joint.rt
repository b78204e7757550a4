ghost use Rattle.std.specs.Prelude.{◌≡◌};
ghost use Rattle.normal_form.specs.Spine.{neutral as neutral_spec, under, row_kind};

use pc_ground::{Ground, NodeKey, RowKind};

#[derive(Clone, Copy)]
pub(crate) enum Junction {
    And,
    Or,
}

impl Junction {
    /// The connective itself, or under a negation the other one.
    pub(crate) fn under(self, holds: bool) -> Junction
        ensures { result ≡ under holds self }
    {
        match (self, holds) {
            (Junction::And, true) | (Junction::Or, false) => Junction::And,
            (Junction::Or, true) | (Junction::And, false) => Junction::Or,
        }
    }

    /// The constant that says nothing beside another part. The other constant decides.
    pub(crate) fn neutral(self) -> bool
        ensures { result ≡ neutral_spec self }
    {
        match self {
            Junction::And => true,
            Junction::Or => false,
        }
    }

    /// The kind of its row.
    pub(crate) fn kind(self) -> RowKind<NodeKey>
        ensures { result ≡ row_kind self }
    {
        match self {
            Junction::And => RowKind::And,
            Junction::Or => RowKind::Or,
        }
    }
}

/// A connective on the right side of a formula, with what stands on its left.
#[derive(Clone, Copy)]
pub(crate) struct Joint<'a> {
    pub(crate) junction: Junction,
    pub(crate) left: &'a Ground,
    /// Whether the left formula is meant, or else its negation.
    pub(crate) holds: bool,
}
