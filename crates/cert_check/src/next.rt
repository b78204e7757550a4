ghost use Rattle.std.specs.Prelude.{◌≡◌, ◌↔◌, [], ℕ, true, List, IfOk, codes};
ghost use Rattle.cert_check.specs.declared.stage.Stage.TheVariants.{SaidObservable, SaidUnobservable};
ghost use Rattle.pc_common.specs.Lines.{Line};
ghost use Rattle.pc_ground.specs.NodeForm.{names_of};
ghost use Rattle.cert_check.specs.Questions.{question_of};
ghost use Rattle.cert_check.specs.Proper.{IsAsked};
ghost use Rattle.cert_check.specs.Subjects.{question_of_subject, IsSubject};
ghost use Rattle.cert_check.specs.Stages.{StandsAt, IsGraphSoFar, IsTreeSoFar};
ghost use Rattle.cert_check.specs.Judged.{Advances, HasStepped};
ghost use Rattle.cert_check.specs.declared.subject.Subject.{Subject as AnySubject};

use super::header::{Verdict, is_second, verdict_of};
use super::open_tree::OpenTree;
use super::stage::Stage;
use super::subject::Subject;
use graph_check::check_graph_of;
use graph_text::OpenGraph;
use pc_common::Memory;
use pc_ground::{Flat, Front, NodeText};
use refutation::NodeRow;
use std::alloc::Global;

/// The stage after the first line: a verdict. Without a ground tree it has to be observable.
fn after_start<'a>(subject: &Subject<'a>, line: &[u8]) -> Option<Stage<'a>>
    ensures { IsSubject subject.now → (lines : List Line) → lines ≡ [] → Advances subject.now lines line.now result }
{
    match verdict_of(line)? {
        Verdict::Observable => Some(Stage::SaidObservable),
        Verdict::Unobservable => match subject.tree {
            Some(tree) => Some(Stage::SaidUnobservable(tree)),
            None => None,
        },
    }
}

/// The stage after the second line, where the first says observable: how that compares with what the test states.
fn after_observable<'a>(alloc: Global, subject: &Subject<'_>, line: &[u8]) -> Option<Stage<'a>>
    ensures { (lines : List Line) → StandsAt (question_of_subject subject.now) SaidObservable lines
        → Advances subject.now lines line.now result }
{
    if !is_second(line, Verdict::Observable, subject.case.expect()) {
        return None;
    }
    Some(Stage::Graph(OpenGraph::new(alloc)))
}

/// The stage after the second line, where the first says unobservable of this tree.
fn after_unobservable<'a>(
    alloc: Global,
    subject: &Subject<'_>,
    tree: &'a Flat,
    line: &[u8],
) -> Result<Option<Stage<'a>>, Memory>
    ensures { IfOk result (λ next. (lines : List Line)
        → StandsAt (question_of_subject subject.now) (SaidUnobservable tree.entry) lines
        → Advances subject.now lines line.now next) }
{
    if !is_second(line, Verdict::Unobservable, subject.case.expect()) {
        return Ok(None);
    }
    Ok(Some(Stage::Tree(OpenTree::new(alloc, tree)?)))
}

/// Whether a line, without its LF, is the last one of a certificate.
pub(crate) fn is_end(line: &[u8]) -> bool
    ensures { (result ≡ true) ↔ (line.now ≡ codes "end") }
{
    line == b"end".as_slice()
}

/// The stage after the last line of a graph, whose world has to satisfy.
fn end_graph<'a>(
    alloc: Global,
    subject: &Subject<'_>,
    graph: &OpenGraph,
) -> Result<Option<Stage<'a>>, Memory>
    ensures { IfOk result (λ next. (lines : List Line)
        → IsGraphSoFar (question_of_subject subject.now) graph.now lines
        → Advances subject.now lines (codes "end") next) }
{
    if !check_graph_of(alloc, subject.case, subject.axioms, graph.graph())? {
        return Ok(None);
    }
    Ok(Some(Stage::Ended(Verdict::Observable)))
}

/// The stage after the last line of a refutation, where no branch may be open.
fn end_tree<'a>(tree: &OpenTree<'_>) -> Option<Stage<'a>>
    ensures { (s : AnySubject) (lines : List Line) → IsTreeSoFar (question_of_subject s) tree.now lines
        → Advances s lines (codes "end") result }
{
    if !tree.branches.is_closed() {
        return None;
    }
    Some(Stage::Ended(Verdict::Unobservable))
}

/// Does nothing. It shows what the question of a front keeps.
pub(crate) fn show_asked(front: &Front, names: &NodeText<'_>)
    ensures { names.now ≡ names_of front.now → IsAsked (question_of front.now) }
{
    names.show_readable();
    let _ops = front.case.ops();
    let _positions = front.tree.len();
}

/// Puts the next stage in a stage's place, if there is one. Returns whether there is.
fn go_on<'a>(stage: &mut Stage<'a>, next: Option<Stage<'a>>) -> bool
    ensures { (s : AnySubject) (lines : List Line) (text : List ℕ) → Advances s lines text next.entry
        → HasStepped s lines text stage.new result }
{
    let Some(next) = next else {
        return false;
    };
    *stage = next;
    true
}

/// Takes the next line, so that the stage is the one after it. Returns whether a certificate goes on so.
/// After false, or where memory is refused, nothing is said of the stage.
///
/// A line of a graph or of a refutation changes the stage where it is. Moving the stage from line to line cost a
/// quarter of the time.
pub(crate) fn advance<'a>(
    alloc: Global,
    subject: &Subject<'a>,
    row: &mut NodeRow,
    stage: &mut Stage<'a>,
    line: &[u8],
) -> Result<bool, Memory>
    ensures { IfOk result (λ good. IsSubject subject.now
        → (lines : List Line) → StandsAt (question_of_subject subject.now) stage.old lines
        → HasStepped subject.now lines line.now stage.new good) }
{
    let next = match stage {
        Stage::Start => after_start(subject, line),
        Stage::SaidObservable => after_observable(alloc, subject, line),
        Stage::SaidUnobservable(tree) => after_unobservable(alloc, subject, tree, line)?,
        Stage::Graph(graph) => {
            if !is_end(line) {
                return graph.take(&subject.names, line);
            }
            end_graph(alloc, subject, graph)?
        }
        Stage::Tree(tree) => {
            if !is_end(line) {
                return tree.take(&subject.names, row, line);
            }
            end_tree(tree)
        }
        Stage::Ended(_) => None,
    };
    Ok(go_on(stage, next))
}
