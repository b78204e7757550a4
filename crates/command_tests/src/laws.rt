//! Laws of what the commands stand on, each of which is called once.
use ask_command::{no_query_fault, one_query, one_query_fault, query_or_fault, words_are_true};
use axiom_core::{model_with_is_faultless, model_with_says_its_axioms};
use pattern_reader::{
    Pattern, combinations_are_rows, limits_are, no_fault, one_fault, one_pattern, pattern_or_fault,
    read_pattern, rows_are_combinations, rows_are_in_order, rows_come_once, values_come_once,
};
use pipecheck_run::{
    case_or_first_fault, no_first_fault, one_command, one_first_fault, one_model_and_case,
    written_is_verified,
};
use scope_check::query_faults_are_name_faults;
use sweep_command::text_is_the_sweep;

/// A law does nothing, and can be called by anyone who wants what it says.
#[test]
fn each_law_of_the_top_call_can_be_called(_rt: HostRuntime) {
    one_command();
    written_is_verified();
    one_first_fault();
    case_or_first_fault();
    one_model_and_case();
    no_first_fault();
}

#[test]
fn each_law_of_a_model_and_a_listing_can_be_called(_rt: HostRuntime) {
    command_base::one_listing_fault();
    command_base::listing_case_or_fault();
    command_base::one_model_and_listing();
    command_base::no_listing_fault();
}

#[test]
fn each_law_of_models_with_some_axioms_can_be_called(_rt: HostRuntime) {
    model_with_says_its_axioms();
    model_with_is_faultless();
}

#[test]
fn each_law_of_queries_can_be_called(_rt: HostRuntime) {
    words_are_true();
    query_faults_are_name_faults();
    query_or_fault(b"True");
    one_query(b"True");
    one_query_fault(b"True");
    no_query_fault(b"True");
}

const PATTERN: &[u8] = b"Litmus \"p\".
Microop 0 0 0 0 (Read (VA 0 0) (PA 0 0) (Data Any)).
";

fn call_laws_of_rows(pattern: &Pattern) {
    values_come_once(pattern);
    rows_are_combinations(pattern);
    combinations_are_rows(pattern);
    rows_come_once(pattern);
    rows_are_in_order(pattern);
}

#[test]
fn each_law_of_patterns_can_be_called(rt: HostRuntime) {
    limits_are();
    pattern_or_fault(PATTERN);
    one_pattern(PATTERN);
    one_fault(PATTERN);
    no_fault(PATTERN);
    text_is_the_sweep();
    if let Ok(pattern) = read_pattern(rt.alloc(), PATTERN) {
        call_laws_of_rows(&pattern);
    }
}
