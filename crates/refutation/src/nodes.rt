ghost use Rattle.std.specs.Prelude.{◌≡◌, ◌<◌, ◌≤◌, [], length};
ghost use Rattle.refutation.specs.StepWords.{ReadsWord, ReadsNodes};
ghost use Rattle.pc_ground.specs.Words.{words};

use super::node_row::NodeRow;
use super::words::first_word;
use pc_ground::{LineFault, NodeText};

/// Reads a word as a node. Where it is one of these names, it goes into the row, and the answer is true; where it has
/// the form of a node and is none, the answer is false.
fn read_node(names: &NodeText<'_>, word: &[u8], row: &mut NodeRow) -> Result<bool, LineFault>
    requires { length row.old.nodes < row.old.spare }
    ensures read { ReadsWord names.now word.now row.old.nodes row.new.nodes result }
    ensures spare { row.new.spare ≡ row.old.spare }
{
    match names.read(word) {
        Ok(key) => {
            row.put(key);
            Ok(true)
        }
        Err(LineFault::Foreign) => Ok(false),
        Err(LineFault::Malformed) => Err(LineFault::Malformed),
    }
}

/// Reads each word of the text as a node, and puts the nodes into an empty row.
///
/// `Malformed` where a word has no form of a node; `Foreign` where all have, and one is no node of these names.
pub(crate) fn read_nodes(
    names: &NodeText<'_>,
    text: &[u8],
    row: &mut NodeRow,
) -> Result<(), LineFault>
    requires empty { row.old.nodes ≡ [] }
    requires room { length (words text.now) ≤ row.old.spare }
    ensures read { ReadsNodes names.now (words text.now) row.new.nodes result }
    ensures spare { row.new.spare ≡ row.old.spare }
{
    let mut foreign = false;
    let mut left = Some(text);
    while let Some(rest) = left {
        let (word, behind) = first_word(rest);
        let own = read_node(names, word, row)?;
        foreign = foreign || !own;
        left = behind;
    }
    if foreign {
        Err(LineFault::Foreign)
    } else {
        Ok(())
    }
}
