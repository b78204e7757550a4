//! Runs of the top call over files and sinks in memory.
mod failing;
mod outside;
mod runs;
mod tables;
mod texts;

pub(crate) use failing::Plan;
pub(crate) use outside::{calls, files, files_and_spaces, hold_files};
pub(crate) use runs::{End, ends_in, ends_on, ends_over, output_of, words};
pub(crate) use tables::{
    Failed, Run, Told, USAGE, each_ends, each_ends_with, each_fails, each_is_reported,
    none_is_taken,
};
pub(crate) use texts::join_pieces;
