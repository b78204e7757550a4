ghost use Rattle.std.specs.Prelude.{◌≡◌, ◌<◌, ◌≤◌, ◌+◌, ◌*◌, ◌^◌, ◌||◌, ◌==◌, ℕ, false, OnOk, OnErr, if◌then◌else◌};
ghost use Rattle.std.specs.Bool.{OnTrue};
ghost use Rattle.undo_trail.specs.BitTable.{bit_now, Extends, HasSet, IsSameTable};
ghost use Rattle.order_graph.specs.Ways.{IsBelow};
ghost use Rattle.order_graph.specs.Rows.{present_row, missing_row, denier_row, leads_to, with_edge, gains, words_gained, row_words, Enters, IsSized, Takes, TakesEdge, TellsTruth};

use pc_common::Memory;
use pc_ground::Literal;
use std::sync::ledger::Ledger;
use undo_trail::{Steps, UndoTable, meets_words};

// The rows of `nodes` nodes, in this order: for each node what chains from it reach, for each node the nodes
// that it is denied to come before, the present nodes, the denied nodes, and the nodes from which a pair is
// denied. So `undo` of the table takes all of them back, and where no pair is denied one row says so.

/// Whether a chain leads from `a` to `b`.
pub fn reaches(table: &UndoTable, a: u32, b: u32) -> bool
    requires row_in { a < table.now.rows }
    requires column_in { b < 64 * table.now.words }
    ensures { result ≡ bit_now table.now a b }
{
    table.bit(a as usize, b as usize)
}

/// Whether `b` is `a`, or a chain leads from `a` to `b`.
pub fn leads_to(table: &UndoTable, a: u32, b: u32) -> bool
    requires row_in { a < table.now.rows }
    requires column_in { b < 64 * table.now.words }
    ensures { result ≡ leads_to table.now a b }
{
    a == b || reaches(table, a, b)
}

/// Whether `a` is asserted, by itself or as an end of an edge.
pub fn is_present(table: &UndoTable, nodes: u32, a: u32) -> bool
    requires sized { IsSized nodes table.now }
    requires inside { a < nodes }
    ensures { result ≡ bit_now table.now (present_row nodes) a }
{
    table.bit(2 * nodes as usize, a as usize)
}

/// Whether `a` is denied.
pub fn is_missing(table: &UndoTable, nodes: u32, a: u32) -> bool
    requires sized { IsSized nodes table.now }
    requires inside { a < nodes }
    ensures { result ≡ bit_now table.now (missing_row nodes) a }
{
    table.bit(2 * nodes as usize + 1, a as usize)
}

/// Whether a pair is denied from `a`.
pub fn is_denier(table: &UndoTable, nodes: u32, a: u32) -> bool
    requires sized { IsSized nodes table.now }
    requires inside { a < nodes }
    ensures { result ≡ bit_now table.now (denier_row nodes) a }
{
    table.bit(2 * nodes as usize + 2, a as usize)
}

/// Whether row `x` gains by an edge from `a` to `b`: `x` comes to `a`, and not yet to `b`.
fn gains(table: &UndoTable, x: u32, a: u32, b: u32) -> bool
    requires row_in { x < table.now.rows }
    requires a_in { a < 64 * table.now.words }
    requires b_in { b < 64 * table.now.words }
    ensures { result ≡ gains table.now a b x }
{
    leads_to(table, x, a) && !reaches(table, x, b)
}

/// Whether `b` reaches nothing.
fn is_sink(table: &UndoTable, b: u32) -> bool
    requires { b < table.now.rows }
    ensures { OnTrue result ((d : ℕ) → d < 64 * table.now.words → bit_now table.now b d ≡ false) }
{
    let row = table.row(b as usize);
    !meets_words(row, row)
}

/// How many words a row changes that takes `b`, with all that it reaches where `b` is no sink.
fn row_words(table: &UndoTable, b: u32, is_sink: bool) -> usize
    requires { b < table.now.rows }
    ensures value { result ≡ row_words table.now is_sink }
    ensures bound { result ≤ 2 ^ 32 }
{
    if is_sink {
        1
    } else {
        table.row(b as usize).len() + 1
    }
}

/// How many words an edge from `a` to `b` can change in what nodes reach, `each` in each row that gains.
fn words_gained(table: &UndoTable, nodes: u32, a: u32, b: u32, each: usize) -> usize
    requires sized { IsSized nodes table.now }
    requires a_in { a < nodes }
    requires b_in { b < nodes }
    requires small { each ≤ 2 ^ 32 }
    ensures value { result ≡ words_gained table.now a b each nodes }
    ensures bound { result ≤ 2 ^ 50 }
{
    let mut words = 0;
    for x in 0..nodes {
        if gains(table, x, a, b) {
            words += each;
        }
    }
    words
}

/// Takes the room of the words that an edge from `a` to `b` can change, `each` in each row that gains, and of two more.
/// The rows that gain are counted only where there is no room for all of them.
fn reserve_gained(
    table: &mut UndoTable,
    nodes: u32,
    a: u32,
    b: u32,
    each: usize,
) -> Result<(), Memory>
    requires sized { IsSized nodes table.old }
    requires a_in { a < nodes }
    requires b_in { b < nodes }
    requires small { each ≤ 2 ^ 32 }
    ensures same { IsSameTable table.old table.new }
    ensures room { OnOk result (words_gained table.old a b each nodes + 2 ≤ table.new.room) }
    ensures err { OnErr result (table.new ≡ table.old) }
{
    if nodes as usize * each + 2 <= table.room() {
        return Ok(());
    }
    table.reserve(words_gained(table, nodes, a, b, each) + 2)?;
    Ok(())
}

/// Puts `b` and all that it reaches into what `x` reaches. A sink is one bit.
fn join_row(table: &mut UndoTable, x: u32, b: u32, is_sink: bool)
    requires x_in { x < table.old.rows }
    requires b_in { b < table.old.rows }
    requires column_in { b < 64 * table.old.words }
    requires sink { OnTrue is_sink ((d : ℕ) → d < 64 * table.old.words → bit_now table.old b d ≡ false) }
    requires room { row_words table.old is_sink ≤ table.old.room }
    ensures joined { (q d : ℕ) → q < table.old.rows → d < 64 * table.old.words → bit_now table.new q d
        ≡ (if q == x then bit_now table.old q d || leads_to table.old b d else bit_now table.old q d) }
    ensures trail { Extends table.old table.new (row_words table.old is_sink) }
    ensures room { table.old.room ≤ table.new.room + row_words table.old is_sink }
{
    if is_sink {
        table.set_bit_reserved(x as usize, b as usize);
        return;
    }
    table.or_row_reserved(x as usize, b as usize);
    table.set_bit_reserved(x as usize, b as usize);
}

/// Enters the edge from `a` to `b` into what nodes reach: `b` and all that it reaches go to `a` and to all
/// nodes that reach it, where they do not have it yet. Each row that takes them is one step.
fn close_over<L: Ledger>(
    table: &mut UndoTable,
    nodes: u32,
    a: u32,
    b: u32,
    is_sink: bool,
    steps: &mut Steps<L>,
)
    requires sized { IsSized nodes table.old }
    requires a_in { a < nodes }
    requires b_in { b < nodes }
    requires takes { TakesEdge nodes table.old a b }
    requires sink { OnTrue is_sink ((d : ℕ) → d < 64 * table.old.words → bit_now table.old b d ≡ false) }
    requires room { words_gained table.old a b (row_words table.old is_sink) nodes ≤ table.old.room }
    ensures closed { (x y : ℕ) → x < nodes → y < 64 * table.old.words
        → bit_now table.new x y ≡ with_edge table.old a b x y }
    ensures others { (q d : ℕ) → nodes ≤ q → q < table.old.rows → d < 64 * table.old.words
        → bit_now table.new q d ≡ bit_now table.old q d }
    ensures trail { Extends table.old table.new (nodes * (table.old.words + 1)) }
    ensures room { table.old.room ≤ table.new.room + words_gained table.old a b (row_words table.old is_sink) nodes }
    ensures cost { steps.new ≤ steps.old + nodes }
{
    for x in 0..nodes {
        if gains(table, x, a, b) {
            join_row(table, x, b, is_sink);
            steps.tick();
        }
    }
}

/// Enters the edge from `a` to `b`, and that both are present. The trail has room for all of it.
fn enter_edge_reserved<L: Ledger>(
    table: &mut UndoTable,
    nodes: u32,
    a: u32,
    b: u32,
    is_sink: bool,
    steps: &mut Steps<L>,
)
    requires sized { IsSized nodes table.old }
    requires a_in { a < nodes }
    requires b_in { b < nodes }
    requires takes { TakesEdge nodes table.old a b }
    requires sink { OnTrue is_sink ((d : ℕ) → d < 64 * table.old.words → bit_now table.old b d ≡ false) }
    requires room { words_gained table.old a b (row_words table.old is_sink) nodes + 2 ≤ table.old.room }
    ensures entered { Enters nodes (Literal.Edge a b) table.old table.new }
    ensures trail { Extends table.old table.new (nodes * (table.old.words + 1) + 2) }
    ensures cost { steps.new ≤ steps.old + nodes }
{
    close_over(table, nodes, a, b, is_sink, steps);
    table.set_bit_reserved(2 * nodes as usize, a as usize);
    table.set_bit_reserved(2 * nodes as usize, b as usize);
}

/// Enters the edge from `a` to `b`, and that both are present. Where a chain leads from `a` to `b` already,
/// the rows have all of that. The room of all words is taken before the first changes.
fn enter_edge<L: Ledger>(
    table: &mut UndoTable,
    nodes: u32,
    a: u32,
    b: u32,
    steps: &mut Steps<L>,
) -> Result<(), Memory>
    requires sized { IsSized nodes table.old }
    requires a_in { a < nodes }
    requires b_in { b < nodes }
    requires takes { TakesEdge nodes table.old a b }
    ensures entered { OnOk result (Enters nodes (Literal.Edge a b) table.old table.new) }
    ensures trail { OnOk result (Extends table.old table.new (nodes * (table.old.words + 1) + 2)) }
    ensures err { OnErr result (table.new ≡ table.old) }
    ensures cost { steps.new ≤ steps.old + nodes }
{
    if reaches(table, a, b) {
        return Ok(());
    }
    let is_sink = is_sink(table, b);
    let each = row_words(table, b, is_sink);
    reserve_gained(table, nodes, a, b, each)?;
    enter_edge_reserved(table, nodes, a, b, is_sink, steps);
    Ok(())
}

/// Enters that a node is asserted, or denied: one bit.
fn enter_bit(table: &mut UndoTable, nodes: u32, row: usize, column: u32) -> Result<(), Memory>
    requires sized { IsSized nodes table.old }
    requires row_in { row < 2 * nodes + 3 }
    requires column_in { column < nodes }
    ensures set { OnOk result (HasSet table.old table.new row column) }
    ensures trail { OnOk result (Extends table.old table.new (nodes * (table.old.words + 1) + 2)) }
    ensures err { OnErr result (table.new ≡ table.old) }
{
    table.set_bit(row, column as usize)?;
    Ok(())
}

/// Enters that `a` is denied to come before `b`: their bit, and that a pair is denied from `a`.
fn enter_pair(table: &mut UndoTable, nodes: u32, a: u32, b: u32) -> Result<(), Memory>
    requires sized { IsSized nodes table.old }
    requires a_in { a < nodes }
    requires b_in { b < nodes }
    ensures entered { OnOk result (Enters nodes (Literal.NoEdge a b) table.old table.new) }
    ensures trail { OnOk result (Extends table.old table.new (nodes * (table.old.words + 1) + 2)) }
    ensures err { OnErr result (table.new ≡ table.old) }
{
    table.reserve(2)?;
    table.set_bit_reserved(nodes as usize + a as usize, b as usize);
    table.set_bit_reserved(2 * nodes as usize + 2, a as usize);
    Ok(())
}

/// Enters the literal, which the rows can take, or where memory is refused leaves the table as it was.
pub fn enter<L: Ledger>(
    table: &mut UndoTable,
    nodes: u32,
    literal: Literal<u32>,
    steps: &mut Steps<L>,
) -> Result<(), Memory>
    requires sized { IsSized nodes table.old }
    requires below { IsBelow nodes literal }
    requires takes { Takes nodes literal table.old }
    ensures entered { OnOk result (Enters nodes literal table.old table.new) }
    ensures trail { OnOk result (Extends table.old table.new (nodes * (table.old.words + 1) + 2)) }
    ensures err { OnErr result (table.new ≡ table.old) }
    ensures cost { steps.new ≤ steps.old + nodes }
{
    match literal {
        Literal::Node(a) => enter_bit(table, nodes, 2 * nodes as usize, a),
        Literal::Edge(a, b) => enter_edge(table, nodes, a, b, steps),
        Literal::NoNode(a) => enter_bit(table, nodes, 2 * nodes as usize + 1, a),
        Literal::NoEdge(a, b) => enter_pair(table, nodes, a, b),
    }
}

/// Whether the literal is true where just the nodes that the table has present are there, in the order of
/// the chains that it has.
pub fn is_true(table: &UndoTable, nodes: u32, literal: Literal<u32>) -> bool
    requires sized { IsSized nodes table.now }
    requires below { IsBelow nodes literal }
    ensures { TellsTruth nodes table.now literal result }
{
    match literal {
        Literal::Node(a) => is_present(table, nodes, a),
        Literal::Edge(a, b) => reaches(table, a, b),
        Literal::NoNode(a) => !is_present(table, nodes, a),
        Literal::NoEdge(a, b) => !reaches(table, a, b),
    }
}
