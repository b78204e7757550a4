ghost use Rattle.std.specs.Prelude.{◌≡◌};
ghost use Rattle.graph_text.specs.declared.graph_fault.GraphFault.TheVariants.{Memory};

use thiserror::Error;

/// Why no graph was read.
#[derive(Clone, Copy, Debug, PartialEq, Eq, Error)]
pub enum GraphFault {
    /// The first line, from 1, that is no node or edge line in order with its ends listed and its LF.
    #[error("line {0} is no line of a graph")]
    Line(u64),
    /// Memory was refused.
    #[error("out of memory")]
    Memory,
}

impl From<pc_common::Memory> for GraphFault {
    ghost from_gives = { λ _ e. e ≡ Memory };

    fn from(_: pc_common::Memory) -> GraphFault {
        GraphFault::Memory
    }
}
