//! The program `pipecheck`: hands its words, the real files and standard output to `run`, and ends
//! with the number of the status that this answers.
//!
//! Clause: none says what `main` does; `tests/program` shows that it ends with the number of the status of `run`.
//!
//! Where the words themselves can't be had nothing is written, and the number is that of `number_without`: 7
//! where memory for them was refused, as for any want of memory, and 8 for any other cause.
#![tactic(auto)]

use real_outside::{RealFiles, RealSink, number_without};
use std::process::ExitCode;
use std::{env, io};
use top_call::run;

fn main(rt: HostRuntime) -> ExitCode {
    match words_after_name(&rt) {
        Ok(words) => {
            let mut files = RealFiles::new(rt);
            let mut out = RealSink::new(rt.stdout());
            let status = run(rt.alloc(), words.as_slice(), &mut files, &mut out);
            ExitCode::from(status.number())
        }
        Err(error) => ExitCode::from(number_without(error.kind())),
    }
}

/// The words after the program's name. Fails with the kind `OutOfMemory` where memory for them was
/// refused, and with another where a word is not UTF-8.
fn words_after_name(rt: &HostRuntime) -> io::Result<Vec<String>> {
    Ok(env::args(rt)?.skip(1).collect(rt.alloc())?)
}
