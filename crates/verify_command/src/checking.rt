ghost use Rattle.std.specs.Prelude.{◌≡◌, ◌≢◌, ◌≤◌, ◌+◌, ◌++◌, ◌↔◌, ℕ, List, Err, None, Some};
ghost use Rattle.std.specs.Prelude.{true, length, IsTrue, IfOk};
ghost use Rattle.pc_common.specs.Faults.{Rose};
ghost use Rattle.pc_common.specs.Reads.{Reads};
ghost use Rattle.pc_common.specs.declared.limits.TheConstants.{MAX_CERTIFICATE};
ghost use Rattle.cert_check.specs.Questions.{question_of, question_of_parts};
ghost use Rattle.cert_check.specs.GraphBegins.{SaysUnobservable};
ghost use Rattle.cert_check.specs.Verified.{Verified};
ghost use Rattle.verify_command.specs.Reading.{IsEnough};
ghost use Rattle.command_base.specs.declared.feed_end.FeedEnd.TheVariants.{ReadFault as a_read_fault};

use super::reading::{feed_file, first_bytes};
use cert_check::{Checked, Checker, GraphChecker};
use command_base::FeedEnd;
use grounder::front_of;
use pc_common::Files;
use pc_ground::{Front, Parts};
use std::alloc::Global;

/// What the named file is to the model and the test of these parts. It is read to its end, or to one byte past the
/// limit, before anything is answered. The ground tree is built where its first line is `unobservable`, once that line
/// is read, and else never.
pub(crate) fn check_file<F: Files>(
    alloc: Global,
    parts: Parts,
    name: &str,
    files: &mut F,
) -> Result<Checked, FeedEnd>
    ensures keeps { Reads F.view files.old files.new }
    ensures verified { IfOk result (λ found. IsTrue (F.view files.old).modelled →
        (bytes : List ℕ) × ((F.view files.old).holds name.now ≡ Some bytes)
        × Verified (question_of_parts parts) bytes found) }
    ensures cause { result ≡ Err a_read_fault → Rose (F.view files.old).faults (F.view files.new).faults }
    ensures missing { IsTrue (F.view files.old).only_missing_fail → result ≡ Err a_read_fault
        → (F.view files.old).holds name.now ≡ None }
{
    let first = first_bytes(alloc, files, name)?;
    check_started(alloc, parts, &first, files)
}

/// Whether the first line of a text with these first bytes is `unobservable`.
fn says_unobservable(first: &[u8]) -> bool
    ensures { (result ≡ true) ↔ SaysUnobservable first.now }
{
    first.starts_with(b"unobservable\n")
}

/// What the file that was started is, whose first bytes these are.
fn check_started<F: Files>(
    alloc: Global,
    parts: Parts,
    first: &[u8],
    files: &mut F,
) -> Result<Checked, FeedEnd>
    requires started { IsTrue (F.view files.old).started }
    requires within { length first.now ≤ MAX_CERTIFICATE + 1 }
    ensures keeps { Reads F.view files.old files.new }
    ensures verified { IfOk result (λ found. IsTrue (F.view files.old).modelled
        → IsEnough first.now (F.view files.old).left
        → Verified (question_of_parts parts) (first.now ++ (F.view files.old).left) found) }
    ensures cause { result ≡ Err a_read_fault → Rose (F.view files.old).faults (F.view files.new).faults }
    ensures sure { IsTrue (F.view files.old).only_missing_fail → result ≢ Err a_read_fault }
{
    if says_unobservable(first) {
        return check_grounded(alloc, parts, first, files);
    }
    let checked = check_graph(alloc, &parts, first, files);
    drop(parts);
    checked
}

/// What the file is, of which the ground tree has to be known.
fn check_grounded<F: Files>(
    alloc: Global,
    parts: Parts,
    first: &[u8],
    files: &mut F,
) -> Result<Checked, FeedEnd>
    requires started { IsTrue (F.view files.old).started }
    requires within { length first.now ≤ MAX_CERTIFICATE + 1 }
    ensures keeps { Reads F.view files.old files.new }
    ensures verified { IfOk result (λ found. IsTrue (F.view files.old).modelled
        → IsEnough first.now (F.view files.old).left
        → Verified (question_of_parts parts) (first.now ++ (F.view files.old).left) found) }
    ensures cause { result ≡ Err a_read_fault → Rose (F.view files.old).faults (F.view files.new).faults }
    ensures sure { IsTrue (F.view files.old).only_missing_fail → result ≢ Err a_read_fault }
{
    let front = front_of(alloc, parts)?;
    let checked = check_any(alloc, &front, first, files);
    drop(front);
    checked
}

/// What the file is to the model and the test of a front.
fn check_any<F: Files>(
    alloc: Global,
    front: &Front,
    first: &[u8],
    files: &mut F,
) -> Result<Checked, FeedEnd>
    requires started { IsTrue (F.view files.old).started }
    requires within { length first.now ≤ MAX_CERTIFICATE + 1 }
    ensures keeps { Reads F.view files.old files.new }
    ensures verified { IfOk result (λ found. IsTrue (F.view files.old).modelled
        → IsEnough first.now (F.view files.old).left
        → Verified (question_of front.now) (first.now ++ (F.view files.old).left) found) }
    ensures cause { result ≡ Err a_read_fault → Rose (F.view files.old).faults (F.view files.new).faults }
    ensures sure { IsTrue (F.view files.old).only_missing_fail → result ≢ Err a_read_fault }
{
    let checker = Checker::new(alloc, front)?;
    let checker = feed_file(files, first, checker)?;
    Ok(checker.finish()?)
}

/// What the file is to the model and the test of these parts, where its first line is not `unobservable`.
fn check_graph<F: Files>(
    alloc: Global,
    parts: &Parts,
    first: &[u8],
    files: &mut F,
) -> Result<Checked, FeedEnd>
    requires started { IsTrue (F.view files.old).started }
    requires within { length first.now ≤ MAX_CERTIFICATE + 1 }
    ensures keeps { Reads F.view files.old files.new }
    ensures verified { IfOk result (λ found. IsTrue (F.view files.old).modelled
        → IsEnough first.now (F.view files.old).left
        → (SaysUnobservable (first.now ++ (F.view files.old).left) → ⊥)
        → Verified (question_of_parts parts.now) (first.now ++ (F.view files.old).left) found) }
    ensures cause { result ≡ Err a_read_fault → Rose (F.view files.old).faults (F.view files.new).faults }
    ensures sure { IsTrue (F.view files.old).only_missing_fail → result ≢ Err a_read_fault }
{
    let checker = GraphChecker::new(alloc, parts);
    let checker = feed_file(files, first, checker)?;
    Ok(checker.finish())
}
