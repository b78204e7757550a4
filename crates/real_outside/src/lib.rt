//! The outside as it is: the files and a writer of the system, behind the traits that the top call takes.
//!
//! Clause: real files and standard output keep the contracts of `Files` and `Sink`, and count each fault (`counted`).
//!
//! ```rust
//! let mut files = RealFiles::new(rt);
//! let mut out = RealSink::new(rt.stdout());
//! let status = run(rt.alloc(), words, &mut files, &mut out);
//! ```
//!
//! Both hand each call on to the system and count those that fail. Neither is modelled: no contract can say what a disk
//! holds, or what standard output took.
#![tactic(auto)]

mod real_files;
mod real_sink;
mod words;

pub use real_files::RealFiles;
pub use real_sink::RealSink;
pub use words::number_without;
