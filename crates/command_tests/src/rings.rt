//! The command gen: rings of cores, searched and counted.
ghost use Rattle.std.specs.Prelude.{◌≤◌};

use crate::memory_runs::{Plan, USAGE, ends_over, output_of};
use cert_check::{Checked, check_text};
use pc_common::{Memory, Status};
use pc_ground::Front;
use pipecheck_run::{front, gen_texts};
use std::alloc::Global;
use std::test::Fail;

const TWO_REPORTED: &str = "gen 2\nunobservable\nnodes 4\nsplits 2\nleaves 3\nend\n";

/// A command, and how it ends.
const RINGS: &[(&'static str, Status, &'static str)] = &[
    ("gen 2", Status::Done, TWO_REPORTED),
    (
        "gen 3",
        Status::Done,
        "gen 3\nunobservable\nnodes 6\nsplits 5\nleaves 6\nend\n",
    ),
    (
        "gen 10",
        Status::Done,
        "gen 10\nunobservable\nnodes 20\nsplits 82\nleaves 83\nend\n",
    ),
    (
        "gen 16",
        Status::Done,
        "gen 16\nunobservable\nnodes 32\nsplits 226\nleaves 227\nend\n",
    ),
    ("gen 1", Status::Usage, USAGE),
    ("gen 17", Status::Usage, USAGE),
    ("gen 02", Status::Usage, USAGE),
    ("gen 2 2", Status::Usage, USAGE),
    ("gen", Status::Usage, USAGE),
];

#[test]
fn a_ring_is_searched_and_counted(rt: HostRuntime) {
    for (command, status, text) in RINGS {
        let end = (*status, *text);
        // no file is touched, so that no call of them can fail
        let is_so = ends_over(rt.alloc(), command, &[], (&[1], &[]), end);
        assert!(rt; is_so.unwrap_or(false), "{command}");
    }
}

/// A report, which is one piece. No file is touched.
pub(crate) const PLANS: &[Plan<'static>] = &[("gen 2", &[], (Status::Done, TWO_REPORTED), 1)];

/// The report on the ring of `n` cores: 2n nodes, (n - 1)(n - 1) + 1 splits, and one leaf more.
fn report(alloc: Global, n: u64) -> Result<String, Memory>
    requires { 2 ≤ n × n ≤ 16 }
{
    let splits = (n - 1) * (n - 1) + 1;
    let text = format!(in alloc;
        "gen {n}\nunobservable\nnodes {}\nsplits {splits}\nleaves {}\nend\n",
        2 * n,
        splits + 1
    )?;
    Ok(text)
}

/// Whether the ring of `n` cores is reported so. No file is touched, so that no call of them can fail.
fn is_reported(alloc: Global, n: u64) -> Result<bool, Memory>
    requires { 2 ≤ n × n ≤ 16 }
{
    let command = format!(in alloc; "gen {n}")?;
    let text = report(alloc, n)?;
    ends_over(alloc, &command, &[], (&[1], &[]), (Status::Done, &text))
}

#[test]
fn a_ring_of_each_size_has_its_counts(rt: HostRuntime) {
    for n in 2..17 {
        let is_so = is_reported(rt.alloc(), n);
        assert!(rt; is_so.unwrap_or(false), "gen {n}");
    }
}

/// Whether the text is the expected one, where there is one, and a refutation that the checker accepts.
fn is_accepted(alloc: Global, front: &Front, written: &[u8], expected: Option<&str>) -> bool {
    let is_expected = match expected {
        Some(text) => written == text.as_bytes(),
        None => true,
    };
    is_expected && check_text(alloc, front, written) == Ok(Checked::Unobservable)
}

/// The same of the front of these two texts.
fn is_accepted_of(
    alloc: Global,
    (model, test): (&[u8], &[u8]),
    written: &[u8],
    expected: Option<&str>,
) -> bool {
    if model.len() > 100_000 || test.len() > 100_000 {
        return false;
    }
    match front(alloc, model, test) {
        Ok(front) => is_accepted(alloc, &front, written, expected),
        Err(_) => false,
    }
}

/// Whether check refutes these two texts, by this text where one is given, and the checker accepts what it wrote.
fn is_refuted(
    alloc: Global,
    texts: (&[u8], &[u8]),
    expected: Option<&str>,
) -> Result<bool, Memory> {
    let (Ok(model), Ok(test)) = (str::from_utf8(texts.0), str::from_utf8(texts.1)) else {
        return Ok(false);
    };
    let contents = &[("model", model), ("test", test)];
    let written = output_of(alloc, "check model test", contents)?;
    Ok(is_accepted_of(alloc, texts, &written, expected))
}

/// The same of the ring of so many cores.
fn is_refuted_ring(alloc: Global, cores: u8, expected: Option<&str>) -> Result<bool, Memory>
    requires { 2 ≤ cores × cores ≤ 16 }
{
    let (model, test) = gen_texts(alloc, cores)?;
    is_refuted(alloc, (model.as_slice(), test.as_slice()), expected)
}

#[test]
fn each_ring_has_no_fault_and_its_refutation_is_accepted(rt: HostRuntime) {
    for cores in 2..17 {
        let is_so = is_refuted_ring(rt.alloc(), cores, None);
        assert!(rt; is_so.unwrap_or(false), "{cores}");
    }
}

const TWO_CORES: &str = "unobservable
test forbidden: ok
split 7
split 12
cycle 0.0@0:S 2.0@1:S
cycle 2.0@1:S 3.0@1:S
cycle 0.0@0:S 1.0@0:S
end
";

#[test]
fn the_ring_of_two_cores_is_refuted_so(rt: HostRuntime) -> Result<(), Fail> {
    assert!(rt; is_refuted_ring(rt.alloc(), 2, Some(TWO_CORES))?);
    Ok(())
}
