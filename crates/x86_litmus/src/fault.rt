ghost use Rattle.std.specs.Prelude.{◌≡◌};
ghost use Rattle.x86_litmus.specs.declared.fault.X86Fault.TheVariants.{Lexical as lexical, Memory as memory};
ghost use Rattle.x86_litmus.specs.Plain.{fault_from};

use pc_common::{FaultKind, Memory, Place};
use std::fmt;
use thiserror::Error;
use uspec_lexer::LexFault;

/// Why a listing says no case: its first fault. A fault of the header comes before the lexical ones, these before those
/// of syntax, and these before those of content, which are in the order of the text, but that `X86Open` comes last.
#[derive(Clone, Copy, Error)]
pub enum X86Fault {
    /// No token, blank or comment begins here, or the one that begins can't be completed.
    #[error("no token, blank or comment at byte {}", .0.offset)]
    Lexical(Place),
    /// No header goes on here, or no listing with the token at this place; for the end, the file's length.
    #[error("no listing goes on at byte {}", .0.offset)]
    Syntax(Place),
    /// The first fault of what the listing says stands at this place.
    #[error("a fault of content at byte {}", .1.offset)]
    Content(FaultKind, Place),
    /// Memory was refused.
    #[error("out of memory")]
    Memory,
}

// By hand, since a derived one is proved variant by variant, and `Error` alone asks for one.
impl fmt::Debug for X86Fault {
    fn fmt<W: fmt::Write>(&self, f: &mut fmt::Formatter<W>) -> fmt::Result {
        fmt::Display::fmt(self, f)
    }
}

impl From<Memory> for X86Fault {
    ghost from_gives = { λ _ e. e ≡ memory };

    fn from(_: Memory) -> X86Fault {
        X86Fault::Memory
    }
}

impl From<LexFault> for X86Fault {
    ghost from_gives = { λ f e. e ≡ fault_from f };

    fn from(fault: LexFault) -> X86Fault {
        match fault {
            LexFault::Lexical(place) => X86Fault::Lexical(place),
            LexFault::Memory => X86Fault::Memory,
        }
    }
}
