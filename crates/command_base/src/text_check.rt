ghost use Rattle.std.specs.Prelude.{◌++◌, ℕ, List, IfOk};
ghost use Rattle.cert_check.specs.Certificates.{Question};
ghost use Rattle.cert_check.specs.Fed.{IsFed};
ghost use Rattle.cert_check.specs.GraphFed.{IsGraphFed};
ghost use Rattle.lifted_check.specs.LiftedTexts.{Question as LiftedQuestion};
ghost use Rattle.lifted_check.specs.Fed.{IsFed as IsLiftedFed};

use cert_check::{Checker, GraphChecker};
use lifted_check::LiftedChecker;
use pc_common::Memory;

/// A check of one text that comes in pieces.
pub trait TextCheck: Drop {
    /// What the text is checked against.
    ghost asked: { Type 0 };

    /// The check is one of this question, and took this text.
    ghost is_fed: { Self → asked → List ℕ → Type 0 };

    /// Takes the next piece of the text.
    fn take_piece(self, piece: &[u8]) -> Result<Self, Memory>
        ensures took { (q : asked) (text : List ℕ) → is_fed self q text
            → IfOk result (λ c. is_fed c q (text ++ piece.now)) };
}

impl<'a> TextCheck for Checker<'a> {
    ghost asked = { Question };

    ghost is_fed = { IsFed };

    fn take_piece(self, piece: &[u8]) -> Result<Checker<'a>, Memory> {
        self.feed(piece)
    }
}

impl<'a> TextCheck for GraphChecker<'a> {
    ghost asked = { Question };

    ghost is_fed = { IsGraphFed };

    fn take_piece(self, piece: &[u8]) -> Result<GraphChecker<'a>, Memory> {
        self.feed(piece)
    }
}

impl<'a> TextCheck for LiftedChecker<'a> {
    ghost asked = { LiftedQuestion };

    ghost is_fed = { IsLiftedFed };

    fn take_piece(self, piece: &[u8]) -> Result<LiftedChecker<'a>, Memory> {
        self.feed(piece)
    }
}
