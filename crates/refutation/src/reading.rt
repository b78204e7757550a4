ghost use Rattle.std.specs.Prelude.{◌≡◌, ◌≢◌, ◌≤◌, ◌∷◌, [], ◌++◌, ℕ, List, false, Ok, OnErr, codes, length};
ghost use Rattle.pc_common.specs.Lines.{Names, sign_text};
ghost use Rattle.pc_common.specs.World.{Node};
ghost use Rattle.pc_common.specs.Steps.{Step as PlainStep};
ghost use Rattle.refutation.specs.Reading.{head_of, nodes_of, IsLineOf, ReadsStep};
ghost use Rattle.refutation.specs.StepWords.{ReadsWords};
ghost use Rattle.refutation.specs.Words.{spaces};
ghost use Rattle.pc_ground.specs.Words.{words};

use super::node_row::NodeRow;
use super::nodes::read_nodes;
use super::step_head::StepHead;
use super::words::first_word;
use pc_ground::{LineFault, NodeText, decimal_value};

/// Reads a line of one word.
fn read_alone(word: &[u8]) -> Result<StepHead, LineFault>
    ensures { (names : Names) → ReadsWords names (word.now ∷ []) [] result }
{
    if word == b"false".as_slice() {
        Ok(StepHead::False)
    } else {
        Err(LineFault::Malformed)
    }
}

/// Whether the sign `~` stands in front, and what stands after it.
fn read_sign(text: &[u8]) -> (bool, &[u8])
    ensures is { text.now ≡ sign_text result.0 ++ result.1.now }
    ensures plain { result.0 ≡ false → (rest : List ℕ) → text.now ≢ codes "~" ++ rest }
{
    match text.strip_prefix(b"~".as_slice()) {
        Some(digits) => (true, digits),
        None => (false, text),
    }
}

/// Reads what stands after the word `split`.
fn read_split(text: &[u8]) -> Result<StepHead, LineFault>
    ensures { (names : Names) → ReadsWords names (codes "split" ∷ words text.now) [] result }
{
    let (negated, digits) = read_sign(text);
    match decimal_value(digits) {
        Some(position) => Ok(StepHead::Split { negated, position }),
        None => Err(LineFault::Malformed),
    }
}

/// Reads what stands after the word `cycle`.
fn read_cycle(names: &NodeText<'_>, rest: &[u8], row: &mut NodeRow) -> Result<StepHead, LineFault>
    requires empty { row.old.nodes ≡ [] }
    requires room { length (words rest.now) ≤ row.old.spare }
    ensures read { ReadsWords names.now (codes "cycle" ∷ words rest.now) row.new.nodes result }
    ensures spare { row.new.spare ≡ row.old.spare }
{
    read_nodes(names, rest, row)?;
    Ok(StepHead::Cycle)
}

/// Reads what stands after the word `path`: two nodes at least.
fn read_path(names: &NodeText<'_>, rest: &[u8], row: &mut NodeRow) -> Result<StepHead, LineFault>
    requires empty { row.old.nodes ≡ [] }
    requires room { length (words rest.now) ≤ row.old.spare }
    ensures read { ReadsWords names.now (codes "path" ∷ words rest.now) row.new.nodes result }
    ensures spare { row.new.spare ≡ row.old.spare }
{
    if first_word(rest).1.is_none() {
        return Err(LineFault::Malformed);
    }
    read_nodes(names, rest, row)?;
    Ok(StepHead::Path)
}

/// Reads what stands after the word `absent`: one node.
fn read_absent(names: &NodeText<'_>, rest: &[u8], row: &mut NodeRow) -> Result<StepHead, LineFault>
    requires empty { row.old.nodes ≡ [] }
    requires room { length (words rest.now) ≤ row.old.spare }
    ensures read { ReadsWords names.now (codes "absent" ∷ words rest.now) row.new.nodes result }
    ensures spare { row.new.spare ≡ row.old.spare }
{
    if first_word(rest).1.is_some() {
        return Err(LineFault::Malformed);
    }
    read_nodes(names, rest, row)?;
    Ok(StepHead::Absent)
}

/// Reads a line of two words at least, with an empty row.
fn read_rest(
    names: &NodeText<'_>,
    word: &[u8],
    rest: &[u8],
    row: &mut NodeRow,
) -> Result<StepHead, LineFault>
    requires empty { row.old.nodes ≡ [] }
    requires room { length (words rest.now) ≤ row.old.spare }
    ensures read { ReadsWords names.now (word.now ∷ words rest.now) row.new.nodes result }
    ensures spare { row.new.spare ≡ row.old.spare }
{
    if word == b"split".as_slice() {
        read_split(rest)
    } else if word == b"cycle".as_slice() {
        read_cycle(names, rest, row)
    } else if word == b"path".as_slice() {
        read_path(names, rest, row)
    } else if word == b"absent".as_slice() {
        read_absent(names, rest, row)
    } else {
        Err(LineFault::Malformed)
    }
}

/// Reads a line word by word, with an empty row.
fn read_words(names: &NodeText<'_>, line: &[u8], row: &mut NodeRow) -> Result<StepHead, LineFault>
    requires empty { row.old.nodes ≡ [] }
    requires room { spaces line.now ≤ row.old.spare }
    ensures read { ReadsWords names.now (words line.now) row.new.nodes result }
    ensures spare { row.new.spare ≡ row.old.spare }
{
    let (word, rest) = first_word(line);
    match rest {
        Some(rest) => read_rest(names, word, rest, row),
        None => read_alone(word),
    }
}

/// Reads a step line, without its LF, and leaves its nodes in the row, which it empties first. Takes no memory.
///
/// `Malformed` where the line has no form of a step line, whatever its nodes name; `Foreign` where it has, and a node
/// of it is not of these names. After either the row is empty, and no step has this line.
///
/// What was written is read again as it was; a split of a position over 64 bits has no line of the format.
pub fn read_line(
    names: &NodeText<'_>,
    line: &[u8],
    row: &mut NodeRow,
) -> Result<StepHead, LineFault>
    requires room { spaces line.now ≤ row.old.spare }
    ensures read { ReadsStep names.now line.now row.new.nodes result }
    ensures again { (s : PlainStep Node) → IsLineOf names.now line.now s
        → (result ≡ Ok (head_of s)) × (row.new.nodes ≡ nodes_of s) }
    ensures spare { row.new.spare ≡ row.old.spare }
    ensures none { OnErr result ((s : PlainStep Node) → IsLineOf names.now line.now s → ⊥) }
{
    names.show_readable();
    row.clear();
    let read = read_words(names, line, row);
    if read.is_err() {
        row.clear();
    }
    read
}
