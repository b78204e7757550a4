ghost use Rattle.std.specs.Prelude.{◌≡◌, ◌++◌, [], ℕ, List, IfOk, IsOk};
ghost use Rattle.pc_common.specs.declared.limits.TheConstants.{MAX_CERTIFICATE};
ghost use Rattle.line_judge.specs.Feeds.{IsDecided};
ghost use Rattle.lifted_check.specs.LiftedTexts.{Question, asked, BeginsLifted};
ghost use Rattle.lifted_check.specs.Fed.{IsFound, SaysOutcome, IsFed, EachFed, lifted_of as lifted_by};

use super::judge::LiftedJudge;
use super::lifted::Lifted;
use line_judge::{Feed, Finished};
use pc_case::Case;
use pc_common::{MAX_CERTIFICATE, Memory};
use pc_syntax::Closed;
use std::alloc::Global;

/// What a text is, by what its feed found.
fn lifted_of(finished: Finished<LiftedJudge<'_>>) -> Lifted
    ensures { result ≡ lifted_by finished.entry }
{
    match finished {
        Finished::Whole(_) => Lifted::Unobservable,
        Finished::Refused(line) => Lifted::Refused(line),
    }
}

/// A check of one text against a test and closed axioms. The text comes in pieces, however it is cut, and each line is
/// judged when it is whole. It keeps the open line and the facts of the open branches.
#[derive(Drop)]
pub struct LiftedChecker<'a> {
    feed: Feed<LiftedJudge<'a>>,
}

impl<'a> LiftedChecker<'a> {
    /// A check of a text of which nothing came yet. Takes no memory.
    pub fn new(alloc: Global, case: &'a Case, axioms: &'a [Closed]) -> LiftedChecker<'a>
        ensures { IsFed result (asked case.now axioms.now) [] }
    {
        let judge = LiftedJudge::new(alloc, case, axioms);
        LiftedChecker {
            feed: Feed::new(alloc, judge, MAX_CERTIFICATE as u64),
        }
    }

    /// Takes the next piece of the text. It is not copied, but for a line that ends in a later piece. Where the text
    /// with this piece is longer than 67,108,864 bytes, or a line before it was refused, the piece is only counted,
    /// and Memory is never returned.
    pub fn feed(self, piece: &[u8]) -> Result<LiftedChecker<'a>, Memory>
        ensures took { (q : Question) (text : List ℕ) → IsFed self.entry q text
            → IfOk result (λ c. IsFed c q (text ++ piece.now)) }
        ensures settled { EachFed self.entry (λ q text.
            IsDecided (BeginsLifted q) MAX_CERTIFICATE text (text ++ piece.now) → IsOk result) }
    {
        Ok(LiftedChecker {
            feed: self.feed.feed(piece)?,
        })
    }

    /// What the text is: a lifted refutation, so that no world makes every axiom true, or a text that is refused at a
    /// line. Takes no memory.
    pub fn finish(self) -> Lifted
        ensures found { (q : Question) (text : List ℕ) → IsFed self.entry q text → IsFound q text result }
        ensures outcome { (q : Question) (text : List ℕ) → IsFed self.entry q text → SaysOutcome q result }
    {
        lifted_of(self.feed.finish())
    }
}

/// What a whole text is to a test and its closed axioms: a lifted refutation, or a text that is refused at a line.
/// Neither a ground tree nor the search has a part in it.
pub fn check_lifted(
    alloc: Global,
    case: &Case,
    axioms: &[Closed],
    bytes: &[u8],
) -> Result<Lifted, Memory>
    ensures found { IfOk result (IsFound (asked case.now axioms.now) bytes.now) }
    ensures outcome { IfOk result (SaysOutcome (asked case.now axioms.now)) }
{
    Ok(
        LiftedChecker::new(alloc, case, axioms)
            .feed(bytes)?
            .finish(),
    )
}
