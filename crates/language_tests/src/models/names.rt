//! Names closed to slots and numbers.
use super::texts::{is_refused_at, written_model};
use crate::formula_texts::{put, show_closed};
use macro_expand::{expand, stage_faults};
use pc_common::{FaultKind, Memory};
use pc_syntax::{Expanded, ModelFile};
use scope_check::close;
use std::alloc::Global;

/// What stands in front of each formula of the table.
const BEFORE: &str = "StageName 5 \"F\". StageName 9 \"G\".
DefineMacro \"late\" \"a\": AddEdge ((a, F), (i, (7, G))).
DefineMacro \"swap\" \"a\" \"b\": ~SameCore a b.
Axiom \"x\": forall microop \"i\", exists core \"c\", ";

/// How many bytes these are.
const START: u32 = 180;

/// A formula, and it closed as `show_closed` writes it, `i` being slot 0 and `c` slot 1.
const CLOSED: &[(&'static str, &'static str)] = &[
    ("True", "True"),
    ("IsAnyRead i", "IsAnyRead #0"),
    ("OnCore c i", "OnCore #1 #0"),
    ("OnCore 63 i", "OnCore 63 #0"),
    // a plain name is not looked up
    ("AccessType c i", "AccessType c #0"),
    (
        "~((True /\\ False) \\/ True => False)",
        "Not(Implies(Or(And(True, False), True), False))",
    ),
    ("NodeExists (i, (c, F))", "Nodes[#0@#1:5;]"),
    ("NodeExists (i, (63, F))", "Nodes[#0@63:5;]"),
    ("EdgesExist []", "Edges[]"),
    // a name stands for its innermost binding
    (
        "IsAnyRead i /\\ forall microop \"i\", IsAnyRead i",
        "And(IsAnyRead #0, Forall(microop, IsAnyRead #2))",
    ),
    // a parameter has a slot after those in scope, and free names of a body are looked up where it stands
    ("ExpandMacro late i", "Bind( #0: Edges[#2:5>#0@7:9;])"),
    // parameters are bound all at once
    (
        "exists microop \"a\", ExpandMacro swap i a",
        "Exists(microop, Bind( #0 #2: Not(SameCore #3 #4)))",
    ),
];

/// A formula, and the place and the kind of its first fault.
const FAULTS: &[(&'static str, u32, FaultKind)] = &[
    ("Shared j", START, FaultKind::PredicateUnknown),
    // the number of arguments is judged before the arguments, and these from the left
    (
        "OnCore 64",
        START,
        FaultKind::Arity {
            found: 1,
            wanted: 2,
        },
    ),
    (
        "OnCore 64 j",
        START + 7,
        FaultKind::CoreNumber { number: 64 },
    ),
    ("SameCore i c", START + 11, FaultKind::WrongSort),
    ("SameCore j c", START + 9, FaultKind::Unbound),
    ("OnCore i i", START + 7, FaultKind::WrongSort),
    ("IsAnyRead 3", START + 10, FaultKind::WrongSort),
    ("AccessType 3 i", START + 11, FaultKind::WrongSort),
    // of a node the micro-op is judged, then the core, then the stage; of an edge the first node
    ("NodeExists (j, (64, H))", START + 12, FaultKind::Unbound),
    (
        "NodeExists (i, (64, H))",
        START + 16,
        FaultKind::CoreNumber { number: 64 },
    ),
    (
        "NodeExists (i, (c, H))",
        START + 19,
        FaultKind::StageUnknown,
    ),
    (
        "AddEdge ((i, H), (j, G))",
        START + 13,
        FaultKind::StageUnknown,
    ),
    // a parameter has the sort of its argument
    ("ExpandMacro swap i c", 129, FaultKind::WrongSort),
    ("ExpandMacro late j", START + 17, FaultKind::Unbound),
];

/// Writes the axiom closed; false where the model or the axiom has a fault.
fn put_closed(out: &mut Vec<u8>, alloc: Global, model: &ModelFile, axiom: &Expanded) -> bool {
    if stage_faults(model).is_some() {
        return false;
    }
    match close(alloc, model, axiom) {
        Ok(closed) => show_closed(out, &closed.body).is_ok(),
        Err(_) => false,
    }
}

fn put_all(out: &mut Vec<u8>, alloc: Global, model: &ModelFile, axioms: &[Expanded]) -> bool {
    for axiom in axioms {
        if !put_closed(out, alloc, model, axiom) {
            return false;
        }
    }
    true
}

/// Writes the closed axiom of the model, which has one; false where it has a fault.
fn put_axiom(out: &mut Vec<u8>, alloc: Global, model: &ModelFile) -> bool {
    match expand(alloc, model) {
        Ok(axioms) => put_all(out, alloc, model, axioms.as_slice()),
        Err(_) => false,
    }
}

/// `PIECE PIECE PIECE`, as one text.
fn three(alloc: Global, pieces: [&str; 3]) -> Result<Vec<u8>, Memory> {
    let mut text = Vec::new(alloc);
    for piece in pieces {
        put(&mut text, piece.as_bytes())?;
    }
    Ok(text)
}

/// Whether the model's closed axiom is shown so.
fn is_shown(alloc: Global, model: &ModelFile, want: &[u8]) -> bool {
    let mut out = Vec::new(alloc);
    put_axiom(&mut out, alloc, model) && out.as_slice() == want
}

/// The same of the model that a text is.
fn is_read_so(alloc: Global, text: &[u8], want: &[u8]) -> bool {
    match written_model(alloc, text) {
        Some(model) => is_shown(alloc, &model, want),
        None => false,
    }
}

/// Whether the formula, in the axiom, is closed so.
fn is_closed_so(
    alloc: Global,
    formula: &'static str,
    closed: &'static str,
) -> Result<bool, Memory> {
    let text = three(alloc, [BEFORE, formula, "."])?;
    let whole = three(alloc, ["Forall(microop, Exists(core, ", closed, "))"])?;
    Ok(is_read_so(alloc, &text, &whole))
}

#[test]
fn a_formula_is_closed(rt: HostRuntime) {
    for (formula, closed) in CLOSED {
        let is_so = is_closed_so(rt.alloc(), *formula, *closed);
        assert!(rt; is_so.unwrap_or(false), "{formula}");
    }
}

/// Whether the model with this formula in its axiom has this first fault.
fn is_formula_refused(
    alloc: Global,
    formula: &'static str,
    offset: u32,
    kind: FaultKind,
) -> Result<bool, Memory> {
    let text = three(alloc, [BEFORE, formula, "."])?;
    match str::from_utf8(&text) {
        Ok(model) => Ok(is_refused_at(alloc, model, offset, kind)),
        Err(_) => Ok(false),
    }
}

#[test]
fn the_first_fault_of_names_is_told(rt: HostRuntime) {
    for (formula, offset, kind) in FAULTS {
        let is_so = is_formula_refused(rt.alloc(), *formula, *offset, *kind);
        assert!(rt; is_so.unwrap_or(false), "{formula}");
    }
}
