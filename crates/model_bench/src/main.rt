//! Parses one file as a model, or reads it whole, to measure each alone: `bench/reading.py` calls it.
//!
//! Clause: none says what the program answers; `named_text` returns at most 1,048,576 bytes (its clause).
//!
//! The two words are what to do, and the path of the file:
//!
//! - `parse`: the status is 0 where the file is a model of the grammar, and 1 where it is none;
//! - `read`: the status is 0 where the file is a model without faults, whose stages and closed axioms
//!   are then made, and 1 where it has a fault.
//!
//! The status is 1 too where memory for that was refused, and 2 where the words are others, or the file
//! can't be read or holds more than 1,048,576 bytes. Nothing is written.
#![tactic(auto)]

ghost use Rattle.std.specs.Prelude.{◌≡◌, if◌then◌else◌};

mod model;
mod text;
mod words;

use model::{is_model, is_without_faults};
use std::process::ExitCode;
use text::named_text;
use words::{Work, work_and_path};

fn main(rt: HostRuntime) -> ExitCode {
    ExitCode::from(answer(&rt).unwrap_or(2))
}

/// The number of the status, or None where there are no such words or no such file.
fn answer(rt: &HostRuntime) -> Option<u8> {
    let (work, path) = work_and_path(rt)?;
    let bytes = named_text(rt, &path)?;
    let is_good = match work {
        Work::Parse => is_model(rt.alloc(), &bytes),
        Work::Read => is_without_faults(rt.alloc(), &bytes),
    };
    Some(number_of(is_good))
}

fn number_of(is_good: bool) -> u8
    ensures { result ≡ (if is_good then 0 else 1) }
{
    if is_good { 0 } else { 1 }
}
