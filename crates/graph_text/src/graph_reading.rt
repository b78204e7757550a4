ghost use Rattle.std.specs.Prelude.{◌≡◌, []};
ghost use Rattle.pc_common.specs.Lines.{Names};
ghost use Rattle.graph_text.specs.OpenGraphs.{PlainGraph};
ghost use Rattle.graph_text.specs.GraphReading.{AreGraphLines, IsTakenBy, IsTextOf, ReadsGraph, AnswersGraph};
ghost use Rattle.graph_text.specs.LawsOfGraphs.{first_lines_of};

use super::graph::Graph;
use super::graph_fault::GraphFault;
use super::open_graph::OpenGraph;
use line_judge::{Feed, Finished, Judge};
use pc_common::Memory;
use pc_ground::NodeText;
use std::alloc::Global;
use std::marker::{Brand, PhantomData};

/// Names as a type. It is there for the contracts alone: a judge of this type has these names.
trait Named {
    ghost names: { Names };
}

impl Named for Brand {
    ghost names = { record { ops = []; stages = [] } };
}

/// It judges the lines of a graph of the names `K`.
#[derive(Drop)]
struct GraphJudge<'a, K> {
    names: &'a NodeText<'a>,
    graph: OpenGraph,
    named: PhantomData<K>,
}

impl<'a, K: Named> Judge for GraphJudge<'a, K> {
    ghost view = { λ judge. record {
      begins = AreGraphLines K.names;
      whole = AreGraphLines K.names;
      stands = λ lines. (judge.names.now ≡ K.names) × IsTakenBy K.names judge.graph lines;
    } };

    ghost stands_begins = { λ judge lines taken. (judge.graph, taken.1.taken) };

    ghost begins_first = { λ judge lines more begun. first_lines_of K.names lines more begun };

    ghost whole_begins = { λ judge lines whole. whole };

    fn step(&mut self, line: &[u8]) -> Result<bool, Memory> {
        self.graph.take(self.names, line)
    }

    fn is_done(&self) -> bool {
        true
    }
}

/// Reads the lines of a graph of the names `K`, as `read_graph`.
fn read_named<K: Named>(
    alloc: Global,
    names: &NodeText<'_>,
    body: &[u8],
) -> Result<Graph, GraphFault>
    requires { names.now ≡ K.names }
    ensures read { ReadsGraph K.names body.now result }
    ensures again { (g : PlainGraph) → IsTextOf K.names body.now g → AnswersGraph result g }
{
    names.show_readable();
    let judge: GraphJudge<'_, K> = GraphJudge {
        names,
        graph: OpenGraph::new(alloc),
        named: PhantomData,
    };
    let feed = Feed::new(alloc, judge, body.len() as u64).feed(body)?;
    match feed.finish() {
        Finished::Whole(judge) => Ok(judge.graph.into_graph()),
        Finished::Refused(line) => Err(GraphFault::Line(line)),
    }
}

/// Reads the lines of a graph, each with its LF: node lines, and then edge lines between the nodes listed.
///
/// What `write_graph` writes of such a graph is read again as it was. `Line` names the first line, from 1,
/// that is no line of a graph, may not stand where it does, names a node that the test or the model lacks, or
/// has no LF.
/// Takes memory for the graph, for its nodes once more, and for a last line without LF.
pub fn read_graph(alloc: Global, names: &NodeText<'_>, body: &[u8]) -> Result<Graph, GraphFault>
    ensures read { ReadsGraph names.now body.now result }
    ensures again { (g : PlainGraph) → IsTextOf names.now body.now g → AnswersGraph result g }
{
    read_named::<Brand>(alloc, names, body)
}
