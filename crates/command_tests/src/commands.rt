//! How each command ends, by the tables of its module, each walked by a test.
use crate::memory_runs::{
    Plan, each_ends, each_ends_with, each_fails, each_is_reported, none_is_taken,
};
use crate::{asks, certificates, checks, cores, lifted, listings, rings, sweeps};
use example_texts::{
    BOTH_ORDERS, EMPTY, LISTED_STORE_BUFFERING, ONE, ORDERED, SOME_OP, STORE_BUFFER, TWO,
    TWO_FORBIDDEN, TWO_IN_ORDER,
};
use pc_common::Status;

#[test]
fn a_check_ends_with_a_verdict(rt: HostRuntime) {
    each_ends(
        &rt,
        rt.alloc(),
        "check model test",
        checks::answers::VERDICTS,
    );
}

#[test]
fn a_check_ends_with_a_verdict_or_a_refusal(rt: HostRuntime) {
    each_ends(
        &rt,
        rt.alloc(),
        "check model test",
        checks::checking::CHECKS,
    );
}

#[test]
fn of_candidates_that_tie_the_first_is_split(rt: HostRuntime) {
    each_ends(&rt, rt.alloc(), "check model test", checks::ties::TIES);
}

#[test]
fn a_check_with_page_table_entries_ends_so(rt: HostRuntime) {
    each_ends(
        &rt,
        rt.alloc(),
        "check model test",
        checks::translation::WALKS,
    );
}

#[test]
fn a_check_of_version_2_ends_with_a_verdict(rt: HostRuntime) {
    each_ends(
        &rt,
        rt.alloc(),
        "check2 model test",
        checks::answers::SIGNED,
    );
}

#[test]
fn a_check_of_a_listing_ends_so(rt: HostRuntime) {
    each_ends(&rt, rt.alloc(), "check86 model listing", listings::CHECKS);
}

#[test]
fn a_text_is_verified_against_a_listing(rt: HostRuntime) {
    each_ends(
        &rt,
        rt.alloc(),
        "verify86 model listing text",
        listings::VERIFIES,
    );
}

#[test]
fn a_lifted_text_is_verified_or_refused(rt: HostRuntime) {
    each_ends(
        &rt,
        rt.alloc(),
        "verify-lifted model test certificate",
        lifted::verifying::ENDS,
    );
}

#[test]
fn a_certificate_is_lifted_or_refused(rt: HostRuntime) {
    each_ends(
        &rt,
        rt.alloc(),
        "lift model test certificate",
        lifted::lifting::ENDS,
    );
}

#[test]
fn a_check_is_refused(rt: HostRuntime) {
    each_ends_with(
        &rt,
        rt.alloc(),
        "check model test",
        Status::Refused,
        checks::checking::REFUSED,
    );
}

#[test]
fn a_check_of_version_2_finds_a_refutation(rt: HostRuntime) {
    each_ends_with(
        &rt,
        rt.alloc(),
        "check2 model test",
        Status::Unobservable,
        certificates::signs::FOUND,
    );
}

#[test]
fn a_core_is_found(rt: HostRuntime) {
    each_ends_with(
        &rt,
        rt.alloc(),
        "core model test",
        Status::Done,
        cores::found::CORES,
    );
}

#[test]
fn a_core_is_refused(rt: HostRuntime) {
    each_ends_with(
        &rt,
        rt.alloc(),
        "core model test",
        Status::Refused,
        cores::endings::REFUSED,
    );
}

#[test]
fn a_sweep_has_a_verdict_for_each_row(rt: HostRuntime) {
    each_ends_with(
        &rt,
        rt.alloc(),
        "sweep model test",
        Status::Done,
        sweeps::rows::SWEEPS,
    );
}

#[test]
fn a_sweep_goes_through_all_values(rt: HostRuntime) {
    each_ends_with(
        &rt,
        rt.alloc(),
        "sweep model test",
        Status::Done,
        sweeps::values::VALUES,
    );
}

#[test]
fn a_sweep_is_refused(rt: HostRuntime) {
    each_ends_with(
        &rt,
        rt.alloc(),
        "sweep model test",
        Status::Refused,
        sweeps::endings::REFUSED,
    );
}

#[test]
fn a_pattern_is_refused(rt: HostRuntime) {
    each_ends_with(
        &rt,
        rt.alloc(),
        "sweep model test",
        Status::Refused,
        sweeps::faults::REFUSED,
    );
}

#[test]
fn a_query_is_answered(rt: HostRuntime) {
    each_ends_with(
        &rt,
        rt.alloc(),
        "ask model test query",
        Status::Done,
        asks::words::ANSWERS,
    );
}

#[test]
fn a_query_is_refused(rt: HostRuntime) {
    each_ends_with(
        &rt,
        rt.alloc(),
        "ask model test query",
        Status::Refused,
        asks::endings::REFUSED,
    );
}

#[test]
fn a_text_is_cut_where_a_write_fails(rt: HostRuntime) {
    let contents = &[("model", ORDERED), ("test", TWO)];
    each_fails(&rt, rt.alloc(), contents, checks::answers::CUT_SHORT);
}

#[test]
fn a_check_that_ends_early_says_why(rt: HostRuntime) {
    let contents = &[("model", ORDERED), ("test", TWO), ("bad", "t")];
    each_fails(&rt, rt.alloc(), contents, checks::checking::FAILS);
}

#[test]
fn a_verify_that_ends_early_says_why(rt: HostRuntime) {
    let contents = &[
        ("model", ORDERED),
        ("test", TWO),
        ("certificate", TWO_IN_ORDER),
        ("bad", "t"),
    ];
    each_fails(&rt, rt.alloc(), contents, certificates::verifying::ENDS);
}

#[test]
fn a_verify_lifted_that_ends_early_says_why(rt: HostRuntime) {
    let contents = &[
        ("model", SOME_OP),
        ("test", EMPTY),
        (
            "certificate",
            "unobservable\ntest unstated\nlifted\nfalse 0\nend\n",
        ),
        ("bad", "t"),
    ];
    each_fails(&rt, rt.alloc(), contents, lifted::verifying::EARLY);
}

#[test]
fn a_command_on_a_listing_that_ends_early_says_why(rt: HostRuntime) {
    let contents = &[
        ("model", STORE_BUFFER),
        ("listing", LISTED_STORE_BUFFERING),
        ("text", listings::SAW_NEITHER),
        ("bad", "t"),
    ];
    each_fails(&rt, rt.alloc(), contents, listings::ENDS);
}

#[test]
fn a_core_that_ends_early_says_why(rt: HostRuntime) {
    let contents = &[("model", BOTH_ORDERS), ("test", TWO_FORBIDDEN)];
    each_fails(&rt, rt.alloc(), contents, cores::endings::FAILS);
}

#[test]
fn a_sweep_that_ends_early_says_why(rt: HostRuntime) {
    let contents = &[("model", ORDERED), ("test", TWO)];
    each_fails(&rt, rt.alloc(), contents, sweeps::endings::FAILS);
}

#[test]
fn an_ask_that_ends_early_says_why(rt: HostRuntime) {
    let contents = &[
        ("model", asks::texts::NO_AXIOMS),
        ("test", ONE),
        ("query", "True"),
        ("bad", asks::endings::NO_TEXT),
    ];
    each_fails(&rt, rt.alloc(), contents, asks::endings::FAILS);
}

/// Runs of which each call is to fail in turn.
const PLANS: &[&[Plan<'static>]] = &[
    checks::checking::PLANS,
    certificates::verifying::PLANS,
    lifted::lifting::PLANS,
    lifted::verifying::PLANS,
    listings::PLANS,
    sweeps::endings::PLANS,
    rings::PLANS,
];

#[test]
fn a_failed_read_writes_nothing_and_a_failed_write_cuts_the_text(rt: HostRuntime) {
    for plans in PLANS {
        each_is_reported(&rt, rt.alloc(), plans);
    }
}

const NO_COMMANDS: &[&'static str] = &[
    "",
    "check",
    "check model",
    "check model test more",
    "Check model test",
    "model test check",
    "gen 1",
    "gen 17",
    "gen 02",
    "sweep",
    "sweep model",
    "sweep model test test",
    "Sweep model test",
    "sweeps model test",
    "model test sweep",
    "ask",
    "ask model test",
    "ask model test query more",
    "Ask model test query",
    "asks model test query",
    "model test query ask",
];

#[test]
fn words_of_no_command_are_told_so(rt: HostRuntime) {
    none_is_taken(&rt, rt.alloc(), NO_COMMANDS);
}
