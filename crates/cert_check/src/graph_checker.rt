ghost use Rattle.std.specs.Prelude.{◌++◌, [], ℕ, List, IfOk, IsOk};
ghost use Rattle.cert_check.specs.Certificates.{Question};
ghost use Rattle.cert_check.specs.Questions.{question_of_parts};
ghost use Rattle.cert_check.specs.Verified.{Verified};
ghost use Rattle.cert_check.specs.GraphBegins.{SaysUnobservable};
ghost use Rattle.pc_common.specs.declared.limits.TheConstants.{MAX_CERTIFICATE};
ghost use Rattle.line_judge.specs.Feeds.{IsDecided};
ghost use Rattle.cert_check.specs.RawLines.{RawBegins};
ghost use Rattle.cert_check.specs.GraphFed.{IsGraphFed};

use super::checked::Checked;
use super::judge::CertificateJudge;
use super::subject::Subject;
use line_judge::{Feed, Finished};
use pc_common::{MAX_CERTIFICATE, Memory};
use pc_ground::Parts;
use std::alloc::Global;

/// A check of one text whose first line is not `unobservable`, against the model and the test of parts. It reads no
/// ground tree, so none need be built. The text comes in pieces, as `Checker` takes them.
#[derive(Drop)]
pub struct GraphChecker<'a> {
    feed: Feed<CertificateJudge<'a>>,
}

impl<'a> GraphChecker<'a> {
    /// A check of a text of which nothing came yet. Takes no memory.
    pub fn new(alloc: Global, parts: &'a Parts) -> GraphChecker<'a>
        ensures { IsGraphFed result (question_of_parts parts.now) [] }
    {
        let judge = CertificateJudge::new(alloc, Subject::of_parts(parts));
        GraphChecker {
            feed: Feed::new(alloc, judge, MAX_CERTIFICATE as u64),
        }
    }

    /// Takes the next piece of the text. It is not copied, but for a line that ends in a later piece. Where the text
    /// with this piece is longer than 67,108,864 bytes, or a line before it was refused, the piece is only counted,
    /// and `Memory` never comes.
    pub fn feed(self, piece: &[u8]) -> Result<GraphChecker<'a>, Memory>
        ensures took { (q : Question) (text : List ℕ) → IsGraphFed self.entry q text
            → IfOk result (λ c. IsGraphFed c q (text ++ piece.now)) }
        ensures settled { (q : Question) (text : List ℕ) → IsGraphFed self.entry q text
            → IsDecided (RawBegins q) MAX_CERTIFICATE text (text ++ piece.now) → IsOk result }
    {
        Ok(GraphChecker {
            feed: self.feed.feed(piece)?,
        })
    }

    /// What the text is: a certificate that is a graph, or a text that is refused at a line. Nothing is said of a text
    /// whose first line is `unobservable`. Takes no memory.
    pub fn finish(self) -> Checked
        ensures { (q : Question) (text : List ℕ) → IsGraphFed self.entry q text → (SaysUnobservable text → ⊥)
            → Verified q text result }
    {
        match self.feed.finish() {
            Finished::Whole(judge) => judge.verdict(),
            Finished::Refused(line) => Checked::Refused(line),
        }
    }
}
