ghost use Rattle.std.specs.Prelude.{◌≡◌, ◌≢◌, ◌≤◌, ◌⊎◌, ◌↔◌, true, IfOk};
ghost use Rattle.pc_common.specs.Faults.{Rose};
ghost use Rattle.pc_common.specs.Reads.{Reads};
ghost use Rattle.pc_common.specs.declared.status.Status.TheVariants.{Usage as SUsage, ReadFault as SReadFault, WriteFault as SWriteFault, Memory as SMemory};
ghost use Rattle.command_base.specs.Command.{plain_command, word_bytes, IsNoCommand, ReadsNoFiles, IsWithin};
ghost use Rattle.command_base.specs.Endings.{returned_status, returned_text};
ghost use Rattle.top_call.specs.Answers.{usage_text};
ghost use Rattle.top_call.specs.Decides.{IsTold, HasAnsweredCommand, HasAnsweredWords};
ghost use Rattle.top_call.specs.Runs.{run_of, HasAnswered, TakesWhole, LacksWhereItFails, FailsWhereItLacks, WritesAnswer, CutsAnswer, TellsTruth, HasDueStatus};

use super::replies::NoCommand;
use super::reply::Reply;
use ask_command::ask_files;
use command_base::{Command, Ending, ListingFile, TestFile, parse};
use core_command::find_core;
use gen_command::generate;
use lift_command::lift_files;
use pc_common::{Failed, Files, Sink, Status};
use pc_ground::Version;
use search_trait::Solver;
use std::alloc::Global;
use sweep_command::sweep_files;
use verdicts::check;
use verify_command::{verify, verify_lifted};

/// Whether nothing is written with this status.
fn is_silent(status: Status) -> bool
    ensures { (result ≡ true) ↔ ((status ≡ SReadFault) ⊎ (status ≡ SMemory)) }
{
    matches!(status, Status::ReadFault | Status::Memory)
}

/// Writes the text of a reply, unless its status says that nothing is written, and returns the status.
fn tell<R: Reply, K: Sink>(out: &mut K, reply: &R) -> Status
    requires { R.writable reply.now }
    ensures { IsTold K.view (R.ends_with reply.now) (R.text reply.now) out.old out.new result }
{
    let status = reply.status();
    if is_silent(status) {
        return status;
    }
    match reply.write(out) {
        Ok(()) => status,
        Err(Failed) => Status::WriteFault,
    }
}

/// Tells what a command returned.
fn answer<R: Reply, K: Sink>(returned: Result<R, Ending>, out: &mut K) -> Status
    requires { IfOk returned R.writable }
    ensures { IsTold K.view (returned_status R.ends_with returned) (returned_text R.text returned) out.old out.new result }
{
    match returned {
        Ok(reply) => tell(out, &reply),
        Err(ending) => tell(out, &ending),
    }
}

/// Answers a command. No file is touched by one that reads none.
fn perform<F: Files, K: Sink>(
    alloc: Global,
    command: Command<'_>,
    files: &mut F,
    out: &mut K,
) -> Status
    requires { IsWithin (plain_command command) }
    ensures { HasAnsweredCommand F.view K.view (plain_command command.entry) files.old files.new out.old out.new result }
{
    match command {
        Command::Check(version, inputs) => {
            answer(check::<TestFile, F>(alloc, inputs, version, files), out)
        }
        Command::Verify {
            inputs,
            certificate,
        } => answer(
            verify::<TestFile, F>(alloc, inputs, certificate, files),
            out,
        ),
        Command::Core(inputs) => answer(
            find_core::<TestFile, Solver, F>(alloc, inputs, files),
            out,
        ),
        Command::CheckListing(inputs) => answer(
            check::<ListingFile, F>(alloc, inputs, Version::One, files),
            out,
        ),
        Command::VerifyListing {
            inputs,
            certificate,
        } => answer(
            verify::<ListingFile, F>(alloc, inputs, certificate, files),
            out,
        ),
        Command::Sweep(inputs) => answer(sweep_files::<F>(alloc, inputs, files), out),
        Command::VerifyLifted {
            inputs,
            certificate,
        } => answer(
            verify_lifted::<TestFile, F>(alloc, inputs, certificate, files),
            out,
        ),
        Command::Ask { inputs, query } => {
            answer(ask_files::<Solver, F>(alloc, inputs, query, files), out)
        }
        Command::Lift {
            inputs,
            certificate,
        } => answer(
            lift_files::<TestFile, F>(alloc, inputs, certificate, files),
            out,
        ),
        Command::Gen(n) => answer(generate(alloc, n), out),
    }
}

/// Answers the words.
fn answer_words<F: Files, K: Sink>(
    alloc: Global,
    words: &[String],
    files: &mut F,
    out: &mut K,
) -> Status
    ensures { HasAnsweredWords F.view K.view (word_bytes words.now) files.old files.new out.old out.new result }
{
    match parse(words) {
        None => tell(out, &NoCommand),
        Some(command) => perform(alloc, command, files, out),
    }
}

/// Runs a command. `check MODEL TEST` reads the two named files, at most 1,048,576 bytes each,
/// decides whether the outcome of the test is observable on the model, and writes the verdict with
/// its certificate, or the first fault of the files. The other commands read so too:
///
/// - `check2 MODEL TEST` does the same with refutations of version 2, whose splits keep that their left side failed.
/// - `verify MODEL TEST CERT` reads a third file where these two have no fault, to its end or to one byte past
///   67,108,864. It writes the verdict whose certificate the third is, or the line at which it is refused, without a
///   search.
/// - `check86` and `verify86` do what `check` and `verify` do, with a listing in place of the test.
/// - `core MODEL TEST` names a minimal set of axioms that forbid the outcome, or none, each with certificates.
/// - `sweep MODEL PATTERN` writes the verdict on each row of a pattern.
/// - `verify-lifted MODEL TEST CERT` does what `verify` does, of lifted refutations.
/// - `ask MODEL TEST QUERY` reads a third file before it judges any, at most 1,048,576 bytes too. It writes whether the
///   formula in it holds always, sometimes or never, or that there is no world, with certificates.
/// - `lift MODEL TEST CERT` reads as `verify` does, and writes the lifted refutation of a refutation of version 1.
/// - `gen N`, with N from 2 to 16 in decimal, makes the two texts of the ring of N cores and searches them. It writes N,
///   the verdict, how many nodes there are, and how many splits and leaves the search made (`check` leaves out those
///   that a refutation does not need), or the first fault of the two texts.
///
/// Other words are no command, and that is written.
///
/// The words are those after the program's name. Nothing is written before the answer is known, and
/// nothing at all with `ReadFault` or `Memory`. With `WriteFault` the first bytes of the answer's text
/// went out.
///
/// Clauses on what is answered apply if the command reads no file, or the files' contents are known.
///
/// - `idle`: `gen`, and words that are no command, leave the files as they are, and never end with `ReadFault`.
/// - `usage` to `usage_text`: on words that are no command `Usage` or `WriteFault` comes, and `Usage` on no others.
/// - `read_cause` to `read_due`: `ReadFault` comes only where a call of the files failed. Where only missing names
///   fail it comes exactly where a name that is not held is come to: the model's, then the test's, then the
///   query's; and of a third file that is a certificate where these two have no fault.
/// - `write_cause`: `WriteFault` comes only where a call of the sink failed.
/// - `quiet`, `answers`, `short`: what was written.
/// - `headline`, `due`: the verdict is true of the bytes of the two files, whatever a third holds, and it
///   comes: from `check` and `check2` by the outcome, from `verify`, `verify-lifted` and `lift` by what the third file
///   is. From `core`, `sweep`, `ask` and `gen` `Done` comes, or `Refused` where the texts have a fault.
pub fn run<F: Files, K: Sink>(alloc: Global, words: &[String], files: &mut F, out: &mut K) -> Status
    // what stays of the files and of the sink, whose counts of faults do not fall
    ensures files { Reads F.view files.old files.new }
    ensures idle { ReadsNoFiles (word_bytes words.now) → (files.new ≡ files.old) × (result ≢ SReadFault) }
    ensures sink_modelled { (K.view out.new).modelled ≡ (K.view out.old).modelled }
    ensures sink_count { (K.view out.old).faults ≤ (K.view out.new).faults }
    // `Usage` comes on words that are no command, and on no others
    ensures usage { result ≡ SUsage → IsNoCommand (word_bytes words.now) }
    ensures usage_due { IsNoCommand (word_bytes words.now) → (result ≡ SUsage) ⊎ (result ≡ SWriteFault) }
    ensures usage_text { result ≡ SUsage → TakesWhole (K.view out.old) usage_text (K.view out.new) }
    // `ReadFault` and `WriteFault` come only where a call of the files or of the sink failed
    ensures read_cause { result ≡ SReadFault → Rose (F.view files.old).faults (F.view files.new).faults }
    ensures read_calm { LacksWhereItFails (run_of F.view K.view words.now files.old out.old out.new result) }
    ensures read_due { FailsWhereItLacks (run_of F.view K.view words.now files.old out.old out.new result) }
    ensures write_cause { result ≡ SWriteFault → Rose (K.view out.old).faults (K.view out.new).faults }
    // what is written: nothing, the whole text of the answer, or its first bytes
    ensures quiet { (result ≡ SReadFault) ⊎ (result ≡ SMemory) → out.new ≡ out.old }
    ensures answers { HasAnswered result → WritesAnswer
        (run_of F.view K.view words.now files.old out.old out.new result) }
    ensures short { result ≡ SWriteFault → CutsAnswer
        (run_of F.view K.view words.now files.old out.old out.new result) }
    // the verdict is true, and an answer is the one that is due
    ensures headline { TellsTruth (run_of F.view K.view words.now files.old out.old out.new result) }
    ensures due { HasAnswered result → HasDueStatus
        (run_of F.view K.view words.now files.old out.old out.new result) }
{
    answer_words(alloc, words, files, out)
}
