//! The first fault of a model and a test.
use super::texts::are_refused;
use example_texts::EMPTY;
use pc_common::{FaultKind, InputFault, Place, Which};

/// A text, and the place and the kind of its first fault.
type Row = (&'static str, u32, FaultKind);

/// Models with their first faults.
const MODELS: &[Row] = &[
    ("Axiom \"a: True.", 6, FaultKind::Lexical),
    ("Axiom \"a\": True", 15, FaultKind::Syntax),
    (
        "StageName 64 \"S\".",
        10,
        FaultKind::StageNumber { number: 64 },
    ),
    (
        "DefineMacro \"m\": ExpandMacro m.",
        29,
        FaultKind::MacroUnknown,
    ),
    ("Axiom \"n\": NodeExists (i, S).", 23, FaultKind::Unbound),
];

/// The same of tests.
const TESTS: &[Row] = &[
    ("Litmus \"d.", 7, FaultKind::Lexical),
    ("Litmus", 6, FaultKind::Syntax),
    (
        "Litmus \"d\".\nMicroop 0 64 0 0 (Fence).\n",
        22,
        FaultKind::CoreNumber { number: 64 },
    ),
];

/// The tables, which these functions alone name: a proof goes through all rows of a table that a function names.
fn models() -> &'static [Row] {
    MODELS
}

fn tests() -> &'static [Row] {
    TESTS
}

fn fault_in(file: Which, offset: u32, kind: FaultKind) -> InputFault {
    InputFault {
        file,
        place: Place { offset },
        kind,
    }
}

#[test]
fn a_fault_is_told_with_its_file_and_its_place(rt: HostRuntime) {
    for (model, offset, kind) in models() {
        let fault = fault_in(Which::Model, *offset, *kind);
        assert!(rt; are_refused(rt.alloc(), model, EMPTY, fault), "{model}");
    }
    for (test, offset, kind) in tests() {
        let fault = fault_in(Which::Test, *offset, *kind);
        assert!(rt; are_refused(rt.alloc(), "", test, fault), "{test}");
    }
}

#[test]
fn a_fault_of_the_model_is_named_before_one_of_the_test(rt: HostRuntime) {
    for (model, offset, kind) in models() {
        let fault = fault_in(Which::Model, *offset, *kind);
        for (test, _, _) in tests() {
            assert!(rt;
                are_refused(rt.alloc(), model, test, fault),
                "{model} {test}"
            );
        }
    }
}
