ghost use Rattle.std.specs.Prelude.{◌≡◌, ◌<◌, ◌≤◌, ◌+◌, ◌*◌, ◌++◌, [], ◌∷◌, ℕ, List, true, false, All, Contains, IfOk, MatchOption, MatchBool};
ghost use Rattle.pc_common.specs.declared.limits.TheConstants.{MAX_NODES};
ghost use Rattle.undo_trail.specs.BitTable.{bit_now};
ghost use Rattle.pc_ground.specs.Literals.{Joins};
ghost use Rattle.pc_ground.specs.declared.literal.Literal.{Literal as AnyLiteral};
ghost use Rattle.order_graph.specs.Ways.{IsBelow};
ghost use Rattle.order_graph.specs.Rows.{IsSized, IsOver, IsDeniedPast, IsDeniedNowherePast, JoinsDenied, JoinsNoneFrom, Represents};
ghost use Rattle.order_graph.specs.Clashes.{IsClash, IsClashWith, JoinsNone, TellsClash};

use super::chain::way;
use super::clash::{Clash, Numbers};
use super::rows::{is_denier, is_missing, is_present, leads_to, reaches};
use pc_common::Memory;
use pc_ground::Literal;
use std::alloc::Global;
use undo_trail::{UndoTable, meets_words};

/// Whether `x` is denied to come before `b`, or before a node that `b` reaches.
fn is_denied_past(table: &UndoTable, nodes: u32, x: u32, b: u32) -> bool
    requires sized { IsSized nodes table.now }
    requires x_in { x < nodes }
    requires b_in { b < nodes }
    ensures { MatchBool result (IsDeniedPast nodes table.now x b) (IsDeniedNowherePast nodes table.now x b) }
{
    let row = nodes as usize + x as usize;
    table.bit(row, b as usize) || meets_words(table.row(b as usize), table.row(row))
}

/// Where the columns of this word of a row end.
fn end_of_word(nodes: u32, word: u32) -> u32
    requires word_in { 64 * word < nodes }
    requires few { nodes ≤ MAX_NODES }
    ensures low { result ≤ nodes }
    ensures all { (x : ℕ) → x < 64 * word + 64 → x < nodes → x < result }
{
    let end = 64 * word + 64;
    if end < nodes { end } else { nodes }
}

/// Whether the edge from `a` to `b` would join a pair that is denied from a node of this word of a row.
fn word_joins_denied(table: &UndoTable, nodes: u32, word: u32, a: u32, b: u32) -> bool
    requires sized { IsSized nodes table.now }
    requires word_in { 64 * word < nodes }
    requires a_in { a < nodes }
    requires b_in { b < nodes }
    ensures { MatchBool result (JoinsDenied nodes table.now a b)
        (JoinsNoneFrom nodes table.now a b (64 * word) (64 * word + 64)) }
{
    let deniers = table.row(2 * nodes as usize + 2);
    if deniers[word as usize] == 0 {
        return false;
    }
    for x in 64 * word..end_of_word(nodes, word) {
        if is_denier(table, nodes, x)
            && leads_to(table, x, a)
            && is_denied_past(table, nodes, x, b)
        {
            return true;
        }
    }
    false
}

/// Whether the edge from `a` to `b` would join a denied pair. Where no pair is denied from the nodes of a
/// word, they are passed over.
fn joins_denied(table: &UndoTable, nodes: u32, a: u32, b: u32) -> bool
    requires sized { IsSized nodes table.now }
    requires a_in { a < nodes }
    requires b_in { b < nodes }
    ensures { MatchBool result (JoinsDenied nodes table.now a b) (JoinsNoneFrom nodes table.now a b 0 nodes) }
{
    for word in 0..(nodes + 63) / 64 {
        if word_joins_denied(table, nodes, word, a, b) {
            return true;
        }
    }
    false
}

/// Whether the edge from `a` to `b` would clash with the literals that the table represents.
fn edge_would_clash(table: &UndoTable, nodes: u32, a: u32, b: u32) -> bool
    requires sized { IsSized nodes table.now }
    requires a_in { a < nodes }
    requires b_in { b < nodes }
    ensures { TellsClash nodes table.now (Literal.Edge a b) result }
{
    // an edge that a chain goes over changes nothing
    if reaches(table, a, b) {
        return false;
    }
    if is_missing(table, nodes, a) || is_missing(table, nodes, b) || leads_to(table, b, a) {
        return true;
    }
    joins_denied(table, nodes, a, b)
}

/// Whether the literal would clash with those that the table represents. It takes no memory.
pub fn would_clash(table: &UndoTable, nodes: u32, literal: Literal<u32>) -> bool
    requires sized { IsSized nodes table.now }
    requires below { IsBelow nodes literal }
    ensures { TellsClash nodes table.now literal result }
{
    match literal {
        Literal::Node(a) => is_missing(table, nodes, a),
        Literal::Edge(a, b) => edge_would_clash(table, nodes, a, b),
        Literal::NoNode(a) => is_present(table, nodes, a),
        Literal::NoEdge(a, b) => reaches(table, a, b),
    }
}

/// The denied pair of this literal, where the edge from `a` to `b` would join it.
fn joined_pair(
    table: &UndoTable,
    nodes: u32,
    literal: Literal<u32>,
    a: u32,
    b: u32,
) -> Option<(u32, u32)>
    requires sized { IsSized nodes table.now }
    requires below { IsBelow nodes literal }
    requires a_in { a < nodes }
    requires b_in { b < nodes }
    ensures { MatchOption result ((x y : ℕ) → literal ≡ Literal.NoEdge x y → IsOver table.now a b x y → ⊥)
        (λ pair. (literal ≡ Literal.NoEdge pair.0 pair.1) × IsOver table.now a b pair.0 pair.1) }
{
    match literal {
        Literal::NoEdge(x, y) if leads_to(table, x, a) && leads_to(table, b, y) => Some((x, y)),
        _ => None,
    }
}

/// The first denied pair, in order of assertion, that the edge from `a` to `b` would join. Asked only where the bit
/// rows say that some pair would be joined.
fn first_joined_pair(
    table: &UndoTable,
    nodes: u32,
    literals: &[Literal<u32>],
    a: u32,
    b: u32,
) -> Option<(u32, u32)>
    requires sized { IsSized nodes table.now }
    requires below { All (IsBelow nodes) literals.now }
    requires a_in { a < nodes }
    requires b_in { b < nodes }
    ensures { MatchOption result ((x y : ℕ) → Contains literals.now (Literal.NoEdge x y) → IsOver table.now a b x y → ⊥)
        (λ pair. Contains literals.now (Literal.NoEdge pair.0 pair.1) × IsOver table.now a b pair.0 pair.1) }
{
    for literal in literals {
        if let Some(pair) = joined_pair(table, nodes, *literal, a, b) {
            return Some(pair);
        }
    }
    None
}

/// The clash of the edge from `a` to `b` with the first denied pair that it would join, if it joins one.
fn path_clash(
    alloc: Global,
    table: &UndoTable,
    nodes: u32,
    literals: &[Literal<u32>],
    a: u32,
    b: u32,
) -> Result<Option<Clash>, Memory>
    requires sized { IsSized nodes table.now }
    requires represents { Represents nodes table.now.words literals.now table.now.now }
    requires a_in { a < nodes }
    requires b_in { b < nodes }
    ensures { IfOk result (λ found. MatchOption found (JoinsNone literals.now a b)
        (IsClash (literals.now ++ Literal.Edge a b ∷ []))) }
{
    let Some((x, y)) = first_joined_pair(table, nodes, literals, a, b) else {
        return Ok(None);
    };
    let mut path = way(alloc, nodes, literals, x, a)?;
    let rest = way(alloc, nodes, literals, b, y)?;
    path.extend_from_slice(&rest)?;
    Ok(Some(Clash::Path(Numbers::from_vec(path))))
}

/// The clash of the edge from `a` to `b`: with a denied end, with a chain back, or with a denied pair.
fn edge_clash(
    alloc: Global,
    table: &UndoTable,
    nodes: u32,
    literals: &[Literal<u32>],
    a: u32,
    b: u32,
) -> Result<Option<Clash>, Memory>
    requires sized { IsSized nodes table.now }
    requires represents { Represents nodes table.now.words literals.now table.now.now }
    requires a_in { a < nodes }
    requires b_in { b < nodes }
    ensures { IfOk result (IsClashWith literals.now (Literal.Edge a b)) }
{
    if reaches(table, a, b) {
        return Ok(None);
    }
    if is_missing(table, nodes, a) {
        return Ok(Some(Clash::Absent(a)));
    }
    if is_missing(table, nodes, b) {
        return Ok(Some(Clash::Absent(b)));
    }
    if leads_to(table, b, a) {
        let cycle = way(alloc, nodes, literals, b, a)?;
        return Ok(Some(Clash::Cycle(Numbers::from_vec(cycle))));
    }
    if !joins_denied(table, nodes, a, b) {
        return Ok(None);
    }
    path_clash(alloc, table, nodes, literals, a, b)
}

/// The clash of a denied edge from `a` to `b` with a chain.
fn no_edge_clash(
    alloc: Global,
    table: &UndoTable,
    nodes: u32,
    literals: &[Literal<u32>],
    a: u32,
    b: u32,
) -> Result<Option<Clash>, Memory>
    requires sized { IsSized nodes table.now }
    requires represents { Represents nodes table.now.words literals.now table.now.now }
    requires a_in { a < nodes }
    requires b_in { b < nodes }
    ensures { IfOk result (IsClashWith literals.now (Literal.NoEdge a b)) }
{
    if !reaches(table, a, b) {
        return Ok(None);
    }
    let path = way(alloc, nodes, literals, a, b)?;
    Ok(Some(Clash::Path(Numbers::from_vec(path))))
}

/// The absence of `a`, where it clashes.
fn absence(clashes: bool, a: u32) -> Option<Clash>
    ensures { MatchBool clashes (result ≡ Some (Clash.Absent a)) (result ≡ None) }
{
    if clashes {
        Some(Clash::Absent(a))
    } else {
        None
    }
}

/// The clash of the literal with `literals`, which the table represents, or none where all are consistent.
pub fn clash_of(
    alloc: Global,
    table: &UndoTable,
    nodes: u32,
    literals: &[Literal<u32>],
    literal: Literal<u32>,
) -> Result<Option<Clash>, Memory>
    requires sized { IsSized nodes table.now }
    requires represents { Represents nodes table.now.words literals.now table.now.now }
    requires below { IsBelow nodes literal }
    ensures { IfOk result (IsClashWith literals.now literal) }
{
    match literal {
        Literal::Node(a) => Ok(absence(is_missing(table, nodes, a), a)),
        Literal::Edge(a, b) => edge_clash(alloc, table, nodes, literals, a, b),
        Literal::NoNode(a) => Ok(absence(is_present(table, nodes, a), a)),
        Literal::NoEdge(a, b) => no_edge_clash(alloc, table, nodes, literals, a, b),
    }
}
