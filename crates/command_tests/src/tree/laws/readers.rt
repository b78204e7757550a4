//! The laws of lexers, of parsers and of readers of whole files.
use uspec_lexer::{LexFault, Models, tokens};
use x86_litmus::Listings;

const MODEL: &[u8] = b"StageName 0 \"S\".
Axiom \"a\": True.
";

const TEST: &[u8] = b"Litmus \"t\".
Microop 0 0 0 0 (Fence).
Permitted.
";

const LISTING: &[u8] = b"X86 t
{ }
 P0         ;
 MOV [x],$1 ;
exists (x=1)
";

/// A law does nothing, and can be called by anyone who wants what it says.
#[test]
fn each_law_of_tokens_can_be_called(_rt: HostRuntime) {
    uspec_lexer::tokens_or_fault::<Models>(MODEL, 0);
    uspec_lexer::one_list::<Models>(MODEL, 0);
    uspec_lexer::one_fault::<Models>(MODEL, 0);
    uspec_lexer::no_fault::<Models>(MODEL, 0);
    uspec_lexer::tokens_in_order::<Models>(MODEL, 0);
}

#[test]
fn each_law_of_a_listings_tokens_can_be_called(_rt: HostRuntime) {
    uspec_lexer::tokens_or_fault::<Listings>(LISTING, 6);
    uspec_lexer::one_list::<Listings>(LISTING, 6);
    uspec_lexer::one_fault::<Listings>(LISTING, 6);
    uspec_lexer::no_fault::<Listings>(LISTING, 6);
    uspec_lexer::tokens_in_order::<Listings>(LISTING, 6);
}

#[test]
fn each_law_of_parsers_can_be_called(rt: HostRuntime) -> Result<(), LexFault> {
    uspec_parser::limits_are();
    uspec_parser::some_answer(&tokens(rt.alloc(), MODEL)?);
    Ok(())
}

#[test]
fn each_law_of_models_can_be_called(_rt: HostRuntime) {
    pc_front::limits_are();
    pc_front::model_or_fault(MODEL);
    pc_front::one_model(MODEL);
    pc_front::one_model_fault(MODEL);
    pc_front::no_model_fault(MODEL);
}

#[test]
fn each_law_of_cases_can_be_called(_rt: HostRuntime) {
    litmus_reader::case_or_fault(TEST);
    litmus_reader::one_case(TEST);
    litmus_reader::one_fault(TEST);
    litmus_reader::no_fault(TEST);
    litmus_reader::faults_within(TEST);
}

#[test]
fn each_law_of_listings_can_be_called(_rt: HostRuntime) {
    x86_litmus::case_or_fault(LISTING);
    x86_litmus::one_case(LISTING);
    x86_litmus::one_fault(LISTING);
    x86_litmus::no_fault(LISTING);
}
