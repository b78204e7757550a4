ghost use Rattle.std.specs.Prelude.{ℕ, All, IfSome};
ghost use Rattle.order_graph.specs.Ways.{IsBelow};
ghost use Rattle.solver.specs.Below.{IsRowBelow};

use crate::tree::ors::literal_at;
use crate::tree::rows::row_at;
use crate::tree::side::Side;
use pc_ground::{Literal, Row, RowKind};

/// How many positions the tree at `p` has, or 0 past the end.
pub(crate) fn skip_at(rows: &[Row<u32>], p: usize) -> usize {
    if p < rows.len() { rows[p].skip } else { 0 }
}

/// A walk over what a part of the tree asserts, under a sign: in preorder, under each And and past the whole of each Or.
///
/// Under the other sign an Or is an And. So the walk of an Or under the other sign goes over its *alternatives*: its sides,
/// and of a side that is an Or again the alternatives of that one.
#[derive(Clone, Copy)]
pub(crate) struct Walk {
    negated: bool,
    at: usize,
    end: usize,
}

impl Walk {
    /// That of the part at `root`.
    pub(crate) fn new(rows: &[Row<u32>], negated: bool, root: usize) -> Walk {
        let end = root.saturating_add(skip_at(rows, root));
        Walk {
            negated,
            at: root,
            end,
        }
    }

    /// That of the alternatives of the Or at `p`.
    pub(crate) fn alternatives(rows: &[Row<u32>], negated: bool, p: usize) -> Walk {
        Walk::new(rows, !negated, p)
    }

    /// The next position, with what its row is under the sign.
    fn next(&mut self, rows: &[Row<u32>]) -> Option<(usize, RowKind<u32>)> {
        let at = self.at;
        if at >= self.end || at >= rows.len() {
            return None;
        }
        let row = row_at(rows, at).negate_if(self.negated);
        self.at = at.saturating_add(row.stride());
        Some((at, row.kind))
    }

    /// The next literal.
    pub(crate) fn next_literal(&mut self, rows: &[Row<u32>]) -> Option<Literal<u32>>
        ensures { IfSome result (λ l. (n : ℕ) → All (IsRowBelow n) rows.now → IsBelow n l) }
    {
        for _ in self.at..self.end {
            let (at, kind) = self.next(rows)?;
            if let RowKind::Lit(_) = kind {
                return literal_at(rows, self.negated, at);
            }
        }
        None
    }

    /// The position of the next Or.
    pub(crate) fn next_or(&mut self, rows: &[Row<u32>]) -> Option<usize> {
        for _ in self.at..self.end {
            let (at, kind) = self.next(rows)?;
            if let RowKind::Or = kind {
                return Some(at);
            }
        }
        None
    }

    /// The position of the next alternative, where the walk is one of alternatives.
    pub(crate) fn next_alternative(&mut self, rows: &[Row<u32>]) -> Option<usize> {
        for _ in self.at..self.end {
            let (at, kind) = self.next(rows)?;
            if let RowKind::And = kind {
                continue;
            }
            return Some(at);
        }
        None
    }
}

/// A walk over the literals that a side asserts: first that what it denies is false, and then its own part.
#[derive(Clone, Copy)]
pub(crate) struct SideWalk {
    denied: Option<Walk>,
    own: Walk,
}

impl SideWalk {
    pub(crate) fn new(rows: &[Row<u32>], side: Side) -> SideWalk {
        let denied = match side.denied {
            Some(left) => Some(Walk::new(rows, !side.negated, left)),
            None => None,
        };
        let own = Walk::new(rows, side.negated, side.root);
        SideWalk { denied, own }
    }

    /// The next literal.
    pub(crate) fn next_literal(&mut self, rows: &[Row<u32>]) -> Option<Literal<u32>>
        ensures { IfSome result (λ l. (n : ℕ) → All (IsRowBelow n) rows.now → IsBelow n l) }
    {
        if let Some(walk) = self.denied {
            let mut walk = walk;
            let literal = walk.next_literal(rows);
            if literal.is_some() {
                self.denied = Some(walk);
                return literal;
            }
            self.denied = None;
        }
        self.own.next_literal(rows)
    }
}
