ghost use Rattle.std.specs.Prelude.{◌≡◌};
ghost use Rattle.macro_expand.specs.declared.fault.MacroFault.TheVariants.{Memory as memory};

use pc_common::{Memory, Place};
use std::fmt;
use thiserror::Error;

/// Why a model's axioms aren't expanded: the first fault of its macros, or if they have none, of its
/// sizes. `at` is the place of the fault.
#[derive(Clone, Copy, Error)]
pub enum MacroFault {
    /// The macro named at `again` has the name of the one named at `first`.
    #[error("the macro at byte {} has the name of an earlier one", .again.offset)]
    Again {
        at: Place,
        first: Place,
        again: Place,
    },
    /// The parameter at `again` has the name of the one at `first`, of the same macro.
    #[error("the parameter at byte {} has the name of an earlier one", .again.offset)]
    ParameterAgain {
        at: Place,
        first: Place,
        again: Place,
    },
    /// No macro that is seen here has the name.
    #[error("no macro has the name at byte {}", .at.offset)]
    Unknown {
        at: Place,
    },
    /// The macro has `wanted` parameters, and is given `found` arguments.
    #[error("{found} arguments at byte {}, where the macro has {wanted} parameters", .at.offset)]
    Arguments {
        at: Place,
        found: u64,
        wanted: u64,
    },
    /// The expanded axiom has an atom of greater height than `limit`.
    #[error("the axiom at byte {} is deeper than {limit}", .at.offset)]
    TooDeep {
        at: Place,
        limit: u64,
    },
    /// The expanded axioms up to this one are together of a greater size than `limit`.
    #[error("the axioms up to byte {} are larger than {limit}", .at.offset)]
    TooBig {
        at: Place,
        limit: u64,
    },
    /// Memory was refused.
    #[error("out of memory")]
    Memory,
}

// By hand, since a derived one is proved variant by variant, and `Error` alone asks for one.
impl fmt::Debug for MacroFault {
    fn fmt<W: fmt::Write>(&self, f: &mut fmt::Formatter<W>) -> fmt::Result {
        fmt::Display::fmt(self, f)
    }
}

impl From<Memory> for MacroFault {
    ghost from_gives = { λ _ e. e ≡ memory };

    fn from(_: Memory) -> MacroFault {
        MacroFault::Memory
    }
}
