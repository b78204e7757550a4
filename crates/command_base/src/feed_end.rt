ghost use Rattle.std.specs.Prelude.{◌≡◌};
ghost use Rattle.command_base.specs.declared.feed_end.FeedEnd.TheVariants.{ReadFault as a_read_fault, Memory as no_memory};

use pc_common::{Failed, Memory};
use std::alloc::AllocError;

/// Why a third file could not be checked or lifted.
#[derive(Clone, Copy)]
pub enum FeedEnd {
    /// A call of the files failed.
    ReadFault,
    /// Memory was refused.
    Memory,
}

impl From<Failed> for FeedEnd {
    ghost from_gives = { λ _ e. e ≡ a_read_fault };

    fn from(_: Failed) -> Self {
        FeedEnd::ReadFault
    }
}

impl From<Memory> for FeedEnd {
    ghost from_gives = { λ _ e. e ≡ no_memory };

    fn from(_: Memory) -> Self {
        FeedEnd::Memory
    }
}

impl From<AllocError> for FeedEnd {
    ghost from_gives = { λ _ e. e ≡ no_memory };

    fn from(_: AllocError) -> Self {
        FeedEnd::Memory
    }
}
