ghost use Rattle.std.specs.Prelude.{◌≡◌, true};
ghost use Rattle.pc_ground.specs.Rows.{turned_kind, turned_row};
ghost use Rattle.pc_ground.specs.Walks.{stride as stride_by};

use super::literal::Literal;

/// What stands at a position of a tree.
#[derive(Clone, Copy)]
pub enum RowKind<N> {
    True,
    False,
    Lit(Literal<N>),
    And,
    Or,
}

/// One position of a tree in preorder.
#[derive(Clone, Copy)]
pub struct Row<N> {
    pub kind: RowKind<N>,
    /// How many positions the tree below has, this one among them: 1 for a leaf. The left child of
    /// position p is p + 1, the right child p + 1 + the skip of p + 1.
    pub skip: usize,
}

impl<N> RowKind<N> {
    /// What stands there in the tree's negation.
    fn negation(self) -> RowKind<N>
        ensures { result ≡ turned_kind true self }
    {
        match self {
            RowKind::True => RowKind::False,
            RowKind::False => RowKind::True,
            RowKind::Lit(literal) => RowKind::Lit(literal.contrary()),
            RowKind::And => RowKind::Or,
            RowKind::Or => RowKind::And,
        }
    }
}

impl<N> Row<N> {
    /// The row of the tree, or of its negation. Takes no memory.
    pub fn negate_if(self, negated: bool) -> Row<N>
        ensures { result ≡ turned_row negated self }
    {
        let Row { kind, skip } = self;
        let kind = if negated { kind.negation() } else { kind };
        Row { kind, skip }
    }

    /// How far it is to the next position that a side asserts, on a walk from the side's root to its
    /// end: past the whole of an Or, whose children are not asserted, and one elsewhere. Takes no memory.
    pub fn stride(&self) -> usize
        ensures { result ≡ stride_by self.now }
    {
        match self.kind {
            RowKind::Or => self.skip,
            _ => 1,
        }
    }
}
