ghost use Rattle.std.specs.Prelude.{◌≡◌};
ghost use Rattle.litmus_reader.specs.declared.fault.CaseFault.TheVariants.{Lexical as lexical, Memory as memory};
ghost use Rattle.litmus_reader.specs.Rows.{fault_from};

use pc_common::{FaultKind, Memory, Place};
use std::fmt;
use thiserror::Error;
use uspec_lexer::LexFault;

/// Why a test file says no case: its first fault. A lexical fault comes before those of syntax, and
/// these come before those of content, which are in the order of the lines.
#[derive(Clone, Copy, Error)]
pub enum CaseFault {
    /// No token, blank or comment begins here, or the one that begins can't be completed.
    #[error("no token, blank or comment at byte {}", .0.offset)]
    Lexical(Place),
    /// No test goes on with the token at this place. For the end of the tokens it is the file's length.
    #[error("no item of the grammar goes on at byte {}", .0.offset)]
    Syntax(Place),
    /// The first line with a fault has it at this place.
    #[error("a fault of content at byte {}", .1.offset)]
    Content(FaultKind, Place),
    /// Memory was refused.
    #[error("out of memory")]
    Memory,
}

// By hand, since a derived one is proved variant by variant, and `Error` alone asks for one.
impl fmt::Debug for CaseFault {
    fn fmt<W: fmt::Write>(&self, f: &mut fmt::Formatter<W>) -> fmt::Result {
        fmt::Display::fmt(self, f)
    }
}

impl From<Memory> for CaseFault {
    ghost from_gives = { λ _ e. e ≡ memory };

    fn from(_: Memory) -> CaseFault {
        CaseFault::Memory
    }
}

impl From<LexFault> for CaseFault {
    ghost from_gives = { λ f e. e ≡ fault_from f };

    fn from(fault: LexFault) -> CaseFault {
        match fault {
            LexFault::Lexical(place) => CaseFault::Lexical(place),
            LexFault::Memory => CaseFault::Memory,
        }
    }
}
