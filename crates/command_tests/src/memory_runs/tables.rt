//! Tables of runs: what the files hold, and how a command ends over them.
use super::failing::{Plan, are_failures_reported};
use super::runs::{ends_on, ends_over};
use pc_common::Status;
use std::alloc::Global;
use std::process::Abort;

/// What the program writes where the words are no command.
pub const USAGE: &str = "pipecheck: bad command line\n";

/// What the files hold, in the order in which a command names them, and the status and the text that it ends with.
pub type Run<'a> = (&'a [&'a str], Status, &'a str);

/// The same where a table has one status: what the files hold, and the text.
pub type Told<'a> = (&'a [&'a str], &'a str);

/// A command, the calls of the files and of the sink that fail, and the status and the text that it ends with.
pub type Failed<'a> = (&'a str, &'a [u64], &'a [u64], Status, &'a str);

/// The command ends with each of these rows.
pub fn each_ends(rt: &impl Abort, alloc: Global, command: &str, rows: &[Run<'_>]) {
    for (contents, status, text) in rows {
        let ends = ends_on(alloc, command, *contents, (*status, *text));
        assert!(rt; ends.unwrap_or(false), "{text}");
    }
}

/// The same where each row has one status.
pub fn each_ends_with(
    rt: &impl Abort,
    alloc: Global,
    command: &str,
    status: Status,
    rows: &[Told<'_>],
) {
    for (contents, text) in rows {
        let ends = ends_on(alloc, command, *contents, (status, *text));
        assert!(rt; ends.unwrap_or(false), "{text}");
    }
}

/// Each of these commands ends so over files of these names and contents.
pub fn each_fails(rt: &impl Abort, alloc: Global, contents: &[(&str, &str)], rows: &[Failed<'_>]) {
    for (command, reads, writes, status, text) in rows {
        let fails = (*reads, *writes);
        let ends = ends_over(alloc, command, contents, fails, (*status, *text));
        assert!(rt; ends.unwrap_or(false), "{command}");
    }
}

/// None of these is taken for a command. No file is touched, so that no call of them can fail.
pub fn none_is_taken(rt: &impl Abort, alloc: Global, commands: &[&str]) {
    for command in commands {
        let ends = ends_over(alloc, command, &[], (&[1], &[]), (Status::Usage, USAGE));
        assert!(rt; ends.unwrap_or(false), "{command}");
    }
}

/// Of each plan each failed call is reported.
pub fn each_is_reported(rt: &impl Abort, alloc: Global, plans: &[Plan<'_>]) {
    for plan in plans {
        let text = plan.2.1;
        let are_reported = are_failures_reported(alloc, *plan);
        assert!(rt; are_reported.unwrap_or(false), "{text}");
    }
}
