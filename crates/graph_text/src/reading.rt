ghost use Rattle.std.specs.Prelude.{◌≡◌, MatchOption};
ghost use Rattle.pc_common.specs.Lines.{Line, line_words};
ghost use Rattle.pc_ground.specs.NodeWords.{Lacks, IsCut};
ghost use Rattle.graph_text.specs.GraphTexts.{space, IsGraphLineIn, ReadsLine, AnswersLine, ReadsEnds, AnswersEnds, both_ends, as_node, as_edge};

use super::graph_line::GraphLine;
use pc_ground::{LineFault, NodeKey, NodeText};

/// What stands before the first space, and what after it; None where there is none.
fn cut(line: &[u8]) -> Option<(&[u8], &[u8])>
    ensures { MatchOption result (Lacks space line.now) (λ r. IsCut space line.now r.0.now r.1.now) }
{
    for (at, byte) in line.iter().enumerate() {
        if *byte == b' ' {
            return Some((&line[..at], &line[at + 1..]));
        }
    }
    None
}

/// Both nodes, where both were read; else `Malformed` where one of them is, and `Foreign` elsewhere.
fn join_ends(
    from: Result<NodeKey, LineFault>,
    to: Result<NodeKey, LineFault>,
) -> Result<(NodeKey, NodeKey), LineFault>
    ensures { result ≡ both_ends from to }
{
    match (from, to) {
        (Ok(from), Ok(to)) => Ok((from, to)),
        (Err(LineFault::Malformed), _) | (_, Err(LineFault::Malformed)) => {
            Err(LineFault::Malformed)
        }
        (Err(LineFault::Foreign), _) | (_, Err(LineFault::Foreign)) => Err(LineFault::Foreign),
    }
}

/// The two nodes that the words are the texts of, with a space between.
fn read_ends(names: &NodeText<'_>, words: &[u8]) -> Result<(NodeKey, NodeKey), LineFault>
    ensures read { ReadsEnds names.now words.now result }
    ensures again { AnswersEnds names.now words.now result }
{
    let Some((from, to)) = cut(words) else {
        return Err(LineFault::Malformed);
    };
    join_ends(names.read(from), names.read(to))
}

/// The line of a node that was read.
fn node_line(read: Result<NodeKey, LineFault>) -> Result<GraphLine, LineFault>
    ensures { result ≡ as_node read }
{
    match read {
        Ok(key) => Ok(GraphLine::Node(key)),
        Err(fault) => Err(fault),
    }
}

/// The line of an edge whose ends were read.
fn edge_line(read: Result<(NodeKey, NodeKey), LineFault>) -> Result<GraphLine, LineFault>
    ensures { result ≡ as_edge read }
{
    match read {
        Ok((from, to)) => Ok(GraphLine::Edge(from, to)),
        Err(fault) => Err(fault),
    }
}

/// Reads a line of a graph, without its LF: `node NODE`, or `edge NODE NODE`, with one space between two words.
///
/// `Malformed` where the line has no such form, whatever its nodes name; `Foreign` where it has, and a node
/// is none of these names. What `write_graph` writes is read again as it was. Takes no memory.
pub fn read_graph_line(names: &NodeText<'_>, line: &[u8]) -> Result<GraphLine, LineFault>
    ensures read { ReadsLine names.now line.now result }
    ensures again { (l : Line) → IsGraphLineIn names.now l → line.now ≡ line_words names.now l → AnswersLine result l }
{
    let Some((kind, words)) = cut(line) else {
        return Err(LineFault::Malformed);
    };
    if kind == b"node".as_slice() {
        return node_line(names.read(words));
    }
    if kind == b"edge".as_slice() {
        return edge_line(read_ends(names, words));
    }
    Err(LineFault::Malformed)
}
