ghost use Rattle.std.specs.Prelude.{◌≡◌};
ghost use Rattle.cert_check.specs.Stages.{is_end as is_end_of};
ghost use Rattle.cert_check.specs.Ends.{checked_of};

use super::checked::Checked;
use super::header::Verdict;
use super::open_tree::OpenTree;
use graph_text::OpenGraph;
use pc_ground::Flat;

/// How far a certificate was read.
pub(crate) enum Stage<'a> {
    /// No line.
    Start,
    /// The first line, which says observable.
    SaidObservable,
    /// The first line, which says unobservable of this ground tree.
    SaidUnobservable(&'a Flat),
    /// The two lines of the header, and these lines of a graph.
    Graph(OpenGraph),
    /// The two lines of the header, and this refutation so far.
    Tree(OpenTree<'a>),
    /// A whole certificate of this verdict.
    Ended(Verdict),
}

// By hand: docs/DECISIONS.md, "Drops are written by hand".
impl Drop for Stage<'_> {
    fn drop(self) {
        match self {
            Stage::Start => {}
            Stage::SaidObservable => {}
            Stage::SaidUnobservable(_) => {}
            Stage::Graph(_) => {}
            Stage::Tree(_) => {}
            Stage::Ended(_) => {}
        }
    }
}

impl<'a> Stage<'a> {
    /// Whether the certificate is whole.
    pub(crate) fn is_end(&self) -> bool
        ensures { result ≡ is_end_of self.now }
    {
        matches!(self, Stage::Ended(_))
    }

    /// The verdict of a whole certificate. A stage before the last line counts as refused.
    pub(crate) fn verdict(&self) -> Checked
        ensures { result ≡ checked_of self.now }
    {
        match self {
            Stage::Ended(Verdict::Observable) => Checked::Observable,
            Stage::Ended(Verdict::Unobservable) => Checked::Unobservable,
            Stage::Start
            | Stage::SaidObservable
            | Stage::SaidUnobservable(_)
            | Stage::Graph(_)
            | Stage::Tree(_) => Checked::Refused(0),
        }
    }
}
