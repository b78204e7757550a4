ghost use Rattle.std.specs.Prelude.{◌≡◌};
ghost use Rattle.scope_check.specs.declared.fault.NameFault.TheVariants.{Memory};

use pc_common::Place;
use std::alloc::{AllocError, AllocFailed};
use std::fmt;
use thiserror::Error;

/// Why an axiom can't be closed: one variant for each fault word of names, with the place where the
/// fault stands (in bytes from the file's start) and what the word carries.
#[derive(Clone, Copy, Error)]
pub enum NameFault {
    /// A variable is asked for, and the name has no binding.
    #[error("no binding of the name at byte {}", .at.offset)]
    Unbound { at: Place },
    /// A core where a micro-op is asked for, or the reverse, or a number where a name is asked for.
    #[error("wrong sort at byte {}", .at.offset)]
    WrongSort { at: Place },
    /// No predicate has the name.
    #[error("no predicate of the name at byte {}", .at.offset)]
    UnknownPredicate { at: Place },
    /// Another number of arguments than the predicate takes, which is 0 to 3.
    #[error("{found} arguments in place of {wanted} at byte {}", .at.offset)]
    Arity { at: Place, found: u64, wanted: u64 },
    /// No stage has the name.
    #[error("no stage of the name at byte {}", .at.offset)]
    UnknownStage { at: Place },
    /// A core number over 63.
    #[error("core {number} at byte {}", .at.offset)]
    CoreNumber { at: Place, number: u64 },
    /// More variables in scope than `limit`, which is 32. The place is that of the quantifier or the
    /// expansion that binds them.
    #[error("more than {limit} variables at byte {}", .at.offset)]
    TooManyVariables { at: Place, limit: u64 },
    /// Memory was refused.
    #[error("out of memory")]
    Memory,
}

// By hand, since a derived one is proved variant by variant, and `Error` alone asks for one.
impl fmt::Debug for NameFault {
    fn fmt<W: fmt::Write>(&self, f: &mut fmt::Formatter<W>) -> fmt::Result {
        fmt::Display::fmt(self, f)
    }
}

impl From<pc_common::Memory> for NameFault {
    ghost from_gives = { λ _ e. e ≡ Memory };

    fn from(_: pc_common::Memory) -> NameFault {
        NameFault::Memory
    }
}

impl From<AllocError> for NameFault {
    ghost from_gives = { λ _ e. e ≡ Memory };

    fn from(_: AllocError) -> NameFault {
        NameFault::Memory
    }
}

impl<T: Drop> From<AllocFailed<T>> for NameFault {
    ghost from_gives = { λ _ e. e ≡ Memory };

    fn from(_: AllocFailed<T>) -> NameFault {
        NameFault::Memory
    }
}
