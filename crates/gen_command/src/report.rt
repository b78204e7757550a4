ghost use Rattle.std.specs.Prelude.{◌≡◌};
ghost use Rattle.pc_common.specs.Room.{Puts};
ghost use Rattle.pc_common.specs.Writes.{Writes};
ghost use Rattle.gen_command.specs.Reports.{IsReport, report_text};

use cert_check::{Verdict, verdict_line};
use itoa::Buffer;
use pc_common::{Failed, Room, Sink};
use verdicts::{FoundVerdict, count_found, verdict_kind};

/// What `gen` reports: the number of cores, the verdict, and how many nodes, splits and leaves there are.
#[derive(Clone, Copy)]
pub struct Report {
    pub cores: u8,
    pub verdict: Verdict,
    /// How many nodes the ground tree has.
    pub nodes: u32,
    /// How many steps of the refutation split a branch, 0 where there is a graph.
    pub splits: usize,
    /// How many steps of the refutation close a branch, 0 where there is a graph.
    pub leaves: usize,
}

/// The report of what was found of the ring of `n` cores.
pub(crate) fn report_of(n: u8, verdict: &FoundVerdict) -> Report
    ensures { IsReport n verdict.now result }
{
    let counts = count_found(&verdict.found);
    Report {
        cores: n,
        verdict: verdict_kind(&verdict.found),
        nodes: verdict.front.numbering.len(),
        splits: counts.splits,
        leaves: counts.leaves,
    }
}

/// Puts the six lines of a report.
fn put_report<K: Sink>(room: &mut Room<'_, K>, report: &Report) -> Result<(), Failed>
    ensures { Puts K.view room.old room.new result (report_text report.now) }
{
    let mut cores = Buffer::new();
    let mut nodes = Buffer::new();
    let mut splits = Buffer::new();
    let mut leaves = Buffer::new();
    room.put_all(&[
        b"gen ",
        cores.format(report.cores).as_bytes(),
        b"\n",
        verdict_line(report.verdict),
        b"nodes ",
        nodes.format(report.nodes).as_bytes(),
        b"\n",
        b"splits ",
        splits.format(report.splits).as_bytes(),
        b"\n",
        b"leaves ",
        leaves.format(report.leaves).as_bytes(),
        b"\n",
        b"end\n",
    ])
}

/// Writes the six lines of a report, all as one piece. Takes no memory.
pub fn write_report<K: Sink>(out: &mut K, report: &Report) -> Result<(), Failed>
    ensures { Writes K.view out.old out.new result (report_text report.now) }
{
    let mut room = Room::new(out);
    put_report(&mut room, report)?;
    room.flush()
}
