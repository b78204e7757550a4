ghost use Rattle.std.specs.Prelude.{◌≡◌, ◌<◌, ◌++◌, OnOk, length, take};
ghost use Rattle.pc_common.specs.World.{Node};
ghost use Rattle.pc_ground.specs.Keys.{literal_node, row_node};
ghost use Rattle.pc_ground.specs.Tree.{Tree};
ghost use Rattle.pc_ground.specs.Rows.{rows_of};
ghost use Rattle.pc_ground.specs.Refutes.{signed, Branch};
ghost use Rattle.refutation.specs.BranchFacts.{facts_of_literal};
ghost use Rattle.tree_check.specs.Facts.{facts_of_kind, facts_on, HasAdded};
ghost use Rattle.tree_check.specs.Sides.{positions_at, with_denied, with_all, IsInside};
ghost use Rattle.tree_check.specs.OpenBranches.{IsBranch};

use super::facts::Facts;
use super::root::show_size;
use super::side::Side;
use pc_common::Memory;
use pc_ground::{Flat, Literal, NodeKey, Row, RowKind};
use refutation::BranchFact;

/// Adds what a literal says.
fn add_literal(facts: &mut Facts, literal: Literal<NodeKey>) -> Result<(), Memory>
    ensures { OnOk result (HasAdded facts.old (facts_of_literal (literal_node literal)) facts.new) }
{
    match literal {
        Literal::Node(a) => facts.add(BranchFact::Present(a)),
        Literal::Edge(a, b) => {
            facts.add(BranchFact::Edge(a, b))?;
            facts.add(BranchFact::Present(a))?;
            facts.add(BranchFact::Present(b))
        }
        Literal::NoNode(a) => facts.add(BranchFact::NoNode(a)),
        Literal::NoEdge(a, b) => facts.add(BranchFact::NoEdge(a, b)),
    }
}

/// Adds what is known of an asserted position: what its literal says, and where it has none, that it is
/// asserted.
fn add_row(
    facts: &mut Facts,
    negated: bool,
    position: usize,
    row: Row<NodeKey>,
) -> Result<(), Memory>
    ensures { OnOk result (HasAdded facts.old
        (facts_of_kind (signed negated position) (row_node row).kind) facts.new) }
{
    match row.kind {
        RowKind::Lit(literal) => add_literal(facts, literal),
        _ => facts.add(BranchFact::At(negated, position)),
    }
}

/// Adds all that the part at `root` asserts, of the tree or of its negation. The walk is a loop, which goes past
/// the whole of an Or.
fn add_part(tree: &Flat, negated: bool, root: usize, facts: &mut Facts) -> Result<(), Memory>
    requires { root < length tree.now }
    ensures first { OnOk result (take (length facts.old) facts.new ≡ facts.old) }
    ensures added { OnOk result ((t : Tree Node) → tree.now ≡ rows_of t
        → HasAdded facts.old (facts_on t (positions_at t negated root)) facts.new) }
{
    show_size(tree);
    let end = root + tree.row(root).skip;
    let mut at = root;
    while at < end {
        let row = tree.row(at).negate_if(negated);
        add_row(facts, negated, at, row)?;
        at += row.stride();
    }
    Ok(())
}

/// Asserts the part at `root` on a branch. A literal adds what it says. Where any other root is asserted already,
/// all that its part asserts is, so nothing is walked.
fn enter_part(tree: &Flat, negated: bool, root: usize, facts: &mut Facts) -> Result<(), Memory>
    requires { root < length tree.now }
    ensures first { OnOk result (take (length facts.old) facts.new ≡ facts.old) }
    ensures entered { OnOk result ((t : Tree Node) (ps : Branch) → tree.now ≡ rows_of t → IsBranch t facts.old ps
        → IsBranch t facts.new (ps ++ positions_at t negated root)) }
{
    match tree.row(root).negate_if(negated).kind {
        RowKind::Lit(literal) => add_literal(facts, literal),
        _ => {
            if facts.has(BranchFact::At(negated, root)) {
                return Ok(());
            }
            add_part(tree, negated, root, facts)
        }
    }
}

/// Asserts the negation of the side that was refuted before, where there is one.
fn enter_denied(tree: &Flat, side: Side, facts: &mut Facts) -> Result<(), Memory>
    requires { IsInside (length tree.now) side }
    ensures first { OnOk result (take (length facts.old) facts.new ≡ facts.old) }
    ensures entered { OnOk result ((t : Tree Node) (ps : Branch) → tree.now ≡ rows_of t → IsBranch t facts.old ps
        → IsBranch t facts.new (with_denied t ps side.negated side.denied)) }
{
    match side.denied {
        None => Ok(()),
        Some(root) => enter_part(tree, !side.negated, root, facts),
    }
}

/// Asserts a side on a branch, with the negation of the side that was refuted before it.
pub(crate) fn enter_side(tree: &Flat, side: Side, facts: &mut Facts) -> Result<(), Memory>
    requires { IsInside (length tree.now) side }
    ensures first { OnOk result (take (length facts.old) facts.new ≡ facts.old) }
    ensures entered { OnOk result ((t : Tree Node) (ps : Branch) → tree.now ≡ rows_of t → IsBranch t facts.old ps
        → IsBranch t facts.new (with_all t ps side)) }
{
    enter_denied(tree, side, facts)?;
    enter_part(tree, side.negated, side.root, facts)
}
