//! Stages, macros, and axioms with each macro in its place.
use super::texts::{is_refused_at, written_model};
use crate::formula_texts::{put, show};
use macro_expand::{expand, stage_faults};
use pc_common::{FaultKind, Memory, Place};
use pc_syntax::{Expanded, ModelFile};
use std::alloc::Global;

/// Stages without a fault.
const STAGES: &[&'static str] = &["", "StageName 63 \"S\". StageName 0 \"T\"."];

/// Whether the text is a model, whose stages have no fault.
fn has_good_stages(alloc: Global, text: &str) -> bool {
    match written_model(alloc, text.as_bytes()) {
        Some(model) => stage_faults(&model).is_none(),
        None => false,
    }
}

#[test]
fn stages_differ_in_number_and_name(rt: HostRuntime) {
    for text in STAGES {
        assert!(rt; has_good_stages(rt.alloc(), text), "{text}");
    }
}

/// Stages, and the places of a number or a name and of the same once more, which is their first fault.
const STAGES_AGAIN: &[(&'static str, u32, u32)] = &[
    ("StageName 1 \"S\". StageName 1 \"T\".", 10, 27),
    ("StageName 1 \"S\". StageName 2 \"S\".", 12, 29),
    // of one stage the number is judged first, and stages stand anywhere
    ("StageName 1 \"S\". StageName 1 \"S\".", 10, 27),
    (
        "StageName 1 \"S\". Axiom \"x\": True. StageName 1 \"T\".",
        10,
        44,
    ),
];

#[test]
fn a_stage_has_a_number_and_a_name_of_its_own(rt: HostRuntime) {
    for (text, first, again) in STAGES_AGAIN {
        let kind = FaultKind::StageAgain {
            first: Place { offset: *first },
            again: Place { offset: *again },
        };
        assert!(rt; is_refused_at(rt.alloc(), text, *again, kind), "{text}");
    }
}

/// A model, and its axioms as `show` writes them, an axiom a line.
const EXPANDED: &[(&'static str, &'static str)] = &[
    ("", ""),
    ("Axiom \"x\": ~True.", "Not(True)\n"),
    (
        "DefineMacro \"m\": ~True. Axiom \"x\": ExpandMacro m.",
        "Bind(=: Not(True))\n",
    ),
    // an axiom before its macro, and a macro in a macro
    (
        "Axiom \"x\": ExpandMacro n /\\ True.
DefineMacro \"m\" \"a\" \"b\": SameMicroop a b.
DefineMacro \"n\": ~ExpandMacro m i 3.",
        "And(Bind(=: Not(Bind(a b = i 3: SameMicroop a b))), True)\n",
    ),
    (
        "DefineMacro \"m\" \"a\": IsAnyRead a.
Axiom \"x\": ExpandMacro m i. Axiom \"y\": ~ExpandMacro m j.",
        "Bind(a = i: IsAnyRead a)\nNot(Bind(a = j: IsAnyRead a))\n",
    ),
    // a macro that no axiom reaches is not expanded
    (
        "DefineMacro \"a\": True /\\ True. DefineMacro \"b\": ExpandMacro a /\\ ExpandMacro a.
Axiom \"x\": True.",
        "True\n",
    ),
];

/// A model, and the place and the kind of its first fault.
const FAULTS: &[(&'static str, u32, FaultKind)] = &[
    (
        "StageName 64 \"S\".",
        10,
        FaultKind::StageNumber { number: 64 },
    ),
    // a macro sees the macros before it only, and an axiom all of them
    (
        "DefineMacro \"m\": ExpandMacro m.",
        29,
        FaultKind::MacroUnknown,
    ),
    (
        "DefineMacro \"m\": ExpandMacro n. DefineMacro \"n\": True.",
        29,
        FaultKind::MacroUnknown,
    ),
    (
        "Axiom \"x\": ExpandMacro m. DefineMacro \"m\": True. DefineMacro \"m\" \"a\": True.",
        61,
        FaultKind::MacroAgain {
            first: Place { offset: 38 },
            again: Place { offset: 61 },
        },
    ),
    // of two macros of one name the first counts, and the axiom stands before the second
    (
        "Axiom \"x\": ExpandMacro m 1. DefineMacro \"m\": True. DefineMacro \"m\" \"a\": True.",
        23,
        FaultKind::MacroArguments {
            found: 1,
            wanted: 0,
        },
    ),
    // of a macro the name is judged, then the parameters, then the body
    (
        "DefineMacro \"m\": True. DefineMacro \"m\" \"a\" \"a\": ExpandMacro n.",
        35,
        FaultKind::MacroAgain {
            first: Place { offset: 12 },
            again: Place { offset: 35 },
        },
    ),
    (
        "DefineMacro \"m\" \"a\" \"b\" \"a\": ExpandMacro n.",
        24,
        FaultKind::ParameterAgain {
            first: Place { offset: 16 },
            again: Place { offset: 24 },
        },
    ),
];

fn show_axioms(out: &mut Vec<u8>, axioms: &[Expanded]) -> Result<(), Memory> {
    for axiom in axioms {
        show(out, &axiom.body)?;
        put(out, b"\n")?;
    }
    Ok(())
}

fn are_shown(alloc: Global, axioms: &[Expanded], shown: &str) -> Result<bool, Memory> {
    let mut out = Vec::new(alloc);
    show_axioms(&mut out, axioms)?;
    Ok(out.as_slice() == shown.as_bytes())
}

/// Whether the model's axioms are shown so.
fn is_expanded_so(alloc: Global, model: &ModelFile, shown: &str) -> Result<bool, Memory> {
    match expand(alloc, model) {
        Ok(axioms) => are_shown(alloc, axioms.as_slice(), shown),
        Err(_) => Ok(false),
    }
}

/// The same of the model that a text is.
fn is_read_so(alloc: Global, text: &str, shown: &str) -> Result<bool, Memory> {
    match written_model(alloc, text.as_bytes()) {
        Some(model) => is_expanded_so(alloc, &model, shown),
        None => Ok(false),
    }
}

#[test]
fn each_macro_stands_in_its_place(rt: HostRuntime) {
    for (text, shown) in EXPANDED {
        let is_so = is_read_so(rt.alloc(), text, shown);
        assert!(rt; is_so.unwrap_or(false), "{text}");
    }
}

#[test]
fn the_first_fault_of_stages_and_macros_is_told(rt: HostRuntime) {
    for (text, offset, kind) in FAULTS {
        assert!(rt; is_refused_at(rt.alloc(), text, *offset, *kind), "{text}");
    }
}
