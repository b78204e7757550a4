ghost use Rattle.std.specs.Prelude.{◌≡◌};
ghost use Rattle.uspec_parser.specs.declared.fault.ParseFault.TheVariants.{Memory};

use std::alloc::{AllocError, AllocFailed};
use thiserror::Error;

/// Why tokens have no tree. Tokens are numbered from 0, and the end of the tokens counts as one more.
#[derive(Clone, Copy, Debug, PartialEq, Eq, Error)]
pub enum ParseFault {
    /// Some text of the grammar begins with the tokens before this one, and none with those through it.
    /// The number of the tokens is for their end, where a text would have to go on.
    #[error("no text goes on with token {0}")]
    Syntax(usize),
    /// Some text begins with the tokens through this one, which opens while [`MAX_OPENERS`](crate::MAX_OPENERS)
    /// openers are open.
    #[error("token {0} is one opener too many")]
    Depth(usize),
    /// Memory was refused.
    #[error("out of memory")]
    Memory,
}

impl From<pc_common::Memory> for ParseFault {
    ghost from_gives = { λ _ e. e ≡ Memory };

    fn from(_: pc_common::Memory) -> ParseFault {
        ParseFault::Memory
    }
}

impl From<AllocError> for ParseFault {
    ghost from_gives = { λ _ e. e ≡ Memory };

    fn from(_: AllocError) -> ParseFault {
        ParseFault::Memory
    }
}

impl<T: Drop> From<AllocFailed<T>> for ParseFault {
    ghost from_gives = { λ _ e. e ≡ Memory };

    fn from(_: AllocFailed<T>) -> ParseFault {
        ParseFault::Memory
    }
}
