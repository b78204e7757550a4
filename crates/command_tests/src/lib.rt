//! Tests of the commands through the top call, over files and sinks in memory, of the certificates that they write and
//! judge, of the adapters of the system's files and output, of ground trees and the search, and of laws.
//!
//! One crate has them all, since each crate that stands on the top call builds the whole program for its tests.
#![tactic(auto)]

#[cfg(test)]
mod adapters;
#[cfg(test)]
mod asks;
#[cfg(test)]
mod certificates;
#[cfg(test)]
mod checks;
#[cfg(test)]
mod commands;
#[cfg(test)]
mod cores;
#[cfg(test)]
mod hostile;
#[cfg(test)]
mod laws;
#[cfg(test)]
mod lifted;
#[cfg(test)]
mod listings;
#[cfg(test)]
mod memory_runs;
#[cfg(test)]
mod outside;
#[cfg(test)]
mod rings;
#[cfg(test)]
mod spaces;
#[cfg(test)]
mod sweeps;
#[cfg(test)]
mod tree;
