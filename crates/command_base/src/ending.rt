ghost use Rattle.std.specs.Prelude.{◌≡◌};
ghost use Rattle.pc_common.specs.Writes.{Writes};
ghost use Rattle.command_base.specs.Endings.{ending_of, ending_status as ending_status_of, ending_text};

use super::feed_end::FeedEnd;
use super::refusal::{Refusal, write_refusal};
use pc_common::{Failed, Sink, Status, write_all};

/// How a command ends before it has an answer.
#[derive(Clone, Copy)]
pub enum Ending {
    /// A call of the files failed.
    ReadFault,
    /// Memory was refused.
    Memory,
    /// A file has a fault: the first of all files.
    Refused(Refusal),
}

/// A third file that could not be checked ends the command for the same cause.
impl From<FeedEnd> for Ending {
    ghost from_gives = { λ end ending. ending ≡ ending_of end };

    fn from(end: FeedEnd) -> Self {
        match end {
            FeedEnd::ReadFault => Ending::ReadFault,
            FeedEnd::Memory => Ending::Memory,
        }
    }
}

/// Writes the line of a refusal, and nothing of the two others. Takes no memory.
pub fn write_ending<K: Sink>(out: &mut K, ending: &Ending) -> Result<(), Failed>
    ensures { Writes K.view out.old out.new result (ending_text ending.now) }
{
    match ending {
        Ending::ReadFault | Ending::Memory => write_all(out, b""),
        Ending::Refused(refusal) => write_refusal(out, refusal),
    }
}

/// The status of an ending.
pub fn ending_status(ending: &Ending) -> Status
    ensures { result ≡ ending_status_of ending.now }
{
    match ending {
        Ending::ReadFault => Status::ReadFault,
        Ending::Memory => Status::Memory,
        Ending::Refused(_) => Status::Refused,
    }
}
