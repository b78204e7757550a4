ghost use Rattle.std.specs.Prelude.{◌≡◌, ◌<◌, ◌+◌, ◌^◌, ℕ, All, IfSome, IsTrue, MatchBool, length};
ghost use Rattle.order_graph.specs.Ways.{IsBelow};
ghost use Rattle.solver.specs.Spelled.{spelled};
ghost use Rattle.solver.specs.Below.{IsRowBelow};
ghost use Rattle.solver.specs.Places.{place_signed, denied_left as left_of_right, IsOr, IsSideIn, AreSides};

use super::numbered_tree::NumberedTree;
use super::place::Place;
use super::rows::row_at;
use super::side::Side;
use pc_ground::{Literal, Row, RowKind, Version};

/// The literal at position `p` under this sign, where one stands there.
pub(crate) fn literal_at(rows: &[Row<u32>], negated: bool, p: usize) -> Option<Literal<u32>>
    ensures { IfSome result (λ l. (n : ℕ) → All (IsRowBelow n) rows.now → IsBelow n l) }
{
    if p >= rows.len() {
        return None;
    }
    match row_at(rows, p).negate_if(negated).kind {
        RowKind::Lit(literal) => Some(literal),
        _ => None,
    }
}

/// Whether an Or stands there: of the tree, or of its negation.
pub(crate) fn is_or(tree: &NumberedTree, place: Place) -> bool
    ensures is_or { MatchBool result (IsOr (spelled tree.now.rows) (place_signed place))
        (IsOr (spelled tree.now.rows) (place_signed place) → ⊥) }
    ensures inside { IsTrue result → place.position < length tree.now.rows }
    ensures small { IsTrue result → place.position < 2 ^ 63 }
{
    if place.position >= tree.len() {
        return false;
    }
    match tree.row(place.position).negate_if(place.negated).kind {
        RowKind::Or => true,
        _ => false,
    }
}

/// The left side, where the right one asserts that it is false: in version 2.
pub(crate) fn denied_left(version: Version, left: usize) -> Option<usize>
    ensures { result ≡ left_of_right version left }
{
    match version {
        Version::One => None,
        Version::Two => Some(left),
    }
}

/// The sides of an Or: of the tree, or of its negation. In version 2 the right side asserts first that the
/// left one is false.
pub(crate) fn sides(tree: &NumberedTree, version: Version, place: Place) -> (Side, Side)
    requires is_or { IsOr (spelled tree.now.rows) (place_signed place) }
    requires small { place.position < 2 ^ 63 }
    ensures sides { AreSides version (spelled tree.now.rows) (place_signed place) result }
    ensures left_in { IsSideIn (spelled tree.now.rows) result.0 }
    ensures right_in { IsSideIn (spelled tree.now.rows) result.1 }
{
    let Place { negated, position } = place;
    let left = position + 1;
    let root = left + tree.row(left).skip;
    let denied = denied_left(version, left);
    (
        Side {
            negated,
            root: left,
            denied: None,
        },
        Side {
            negated,
            root,
            denied,
        },
    )
}
