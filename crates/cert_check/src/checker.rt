ghost use Rattle.std.specs.Prelude.{◌++◌, [], ℕ, List, IfOk, IsOk};
ghost use Rattle.pc_ground.specs.declared.front.Front.{Front as AnyFront};
ghost use Rattle.cert_check.specs.Certificates.{Question};
ghost use Rattle.cert_check.specs.Questions.{question_of};
ghost use Rattle.cert_check.specs.Verified.{Verified};
ghost use Rattle.cert_check.specs.Outcomes.{SaysOutcome};
ghost use Rattle.pc_common.specs.declared.limits.TheConstants.{MAX_CERTIFICATE};
ghost use Rattle.line_judge.specs.Feeds.{IsDecided};
ghost use Rattle.cert_check.specs.RawLines.{RawBegins};
ghost use Rattle.cert_check.specs.Fed.{IsFed};

use super::checked::Checked;
use super::judge::CertificateJudge;
use super::subject::Subject;
use line_judge::{Feed, Finished};
use pc_common::{MAX_CERTIFICATE, Memory};
use pc_ground::Front;
use std::alloc::Global;

/// A check of one text against the model and the test of a front. The text comes in pieces, however it is cut,
/// and each line is judged when it is whole.
#[derive(Drop)]
pub struct Checker<'a> {
    feed: Feed<CertificateJudge<'a>>,
}

impl<'a> Checker<'a> {
    /// A check of a text of which nothing came yet.
    pub fn new(alloc: Global, front: &'a Front) -> Result<Checker<'a>, Memory>
        ensures { IfOk result (λ c. IsFed c (question_of front.now) []) }
    {
        let judge = CertificateJudge::new(alloc, Subject::of(front));
        Ok(Checker {
            feed: Feed::new(alloc, judge, MAX_CERTIFICATE as u64),
        })
    }

    /// Takes the next piece of the text. It is not copied, but for a line that ends in a later piece. Where the text
    /// with this piece is longer than 67,108,864 bytes, or a line before it was refused, the piece is only counted,
    /// and `Memory` never comes.
    pub fn feed(self, piece: &[u8]) -> Result<Checker<'a>, Memory>
        ensures took { (q : Question) (text : List ℕ) → IsFed self.entry q text
            → IfOk result (λ c. IsFed c q (text ++ piece.now)) }
        ensures settled { (q : Question) (text : List ℕ) → IsFed self.entry q text
            → IsDecided (RawBegins q) MAX_CERTIFICATE text (text ++ piece.now) → IsOk result }
    {
        Ok(Checker {
            feed: self.feed.feed(piece)?,
        })
    }

    /// What the text is: a certificate of a verdict, or a text that is refused at a line.
    pub fn finish(self) -> Result<Checked, Memory>
        ensures verified { (q : Question) (text : List ℕ) → IsFed self.entry q text → IfOk result (Verified q text) }
        ensures outcome { (f : AnyFront) (text : List ℕ) → IsFed self.entry (question_of f) text
            → IfOk result (SaysOutcome f) }
    {
        match self.feed.finish() {
            Finished::Whole(judge) => Ok(judge.verdict()),
            Finished::Refused(line) => Ok(Checked::Refused(line)),
        }
    }
}

/// What a whole text is to the model and the test of a front: a certificate of a verdict, or a text that is refused
/// at a line. Neither the search nor its graph has a part in it.
pub fn check_text(alloc: Global, front: &Front, bytes: &[u8]) -> Result<Checked, Memory>
    ensures verified { IfOk result (Verified (question_of front.now) bytes.now) }
    ensures outcome { IfOk result (SaysOutcome front.now) }
{
    Checker::new(alloc, front)?.feed(bytes)?.finish()
}
