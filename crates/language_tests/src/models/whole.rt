//! Whole models: the first fault by line and column, the limits, and names that are not captured.
use crate::formula_texts::{Pieces, Told, join_pieces, put, put_number, show_closed, tell_fault};
use pc_common::{FaultKind, InputFault, Memory, Place, Which, line_col};
use pc_front::{FrontEnd, ModelFront, read_model};
use std::alloc::Global;
use std::test::Fail;

/// A model, the line and the column of its first fault, and the kind of that fault.
const FAULTS: &[(&'static str, (u32, u32), FaultKind)] = &[
    ("Axiom \"a: True.", (1, 7), FaultKind::Lexical),
    // a lexical fault is named before one of syntax
    (
        "Axiom \"a\": forall microops \"i\", IsAnyRead i /\\ .\nAxiom \"b",
        (2, 7),
        FaultKind::Lexical,
    ),
    ("Axiom \"a\": True", (1, 16), FaultKind::Syntax),
    (
        "Axiom \"a\": forall microops \"i\", IsAnyRead i /\\ .",
        (1, 48),
        FaultKind::Syntax,
    ),
    (
        "StageName 64 \"S\".",
        (1, 11),
        FaultKind::StageNumber { number: 64 },
    ),
    (
        "StageName 1 \"S\".\nStageName 1 \"T\".",
        (2, 11),
        FaultKind::StageAgain {
            first: Place { offset: 10 },
            again: Place { offset: 27 },
        },
    ),
    // faults of stages are named before those of macros, and these before those of names
    (
        "DefineMacro \"m\": ExpandMacro m.\nStageName 64 \"S\".",
        (2, 11),
        FaultKind::StageNumber { number: 64 },
    ),
    (
        "DefineMacro \"m\": ExpandMacro m.",
        (1, 30),
        FaultKind::MacroUnknown,
    ),
    (
        "DefineMacro \"m\" \"a\" \"a\": True.",
        (1, 21),
        FaultKind::ParameterAgain {
            first: Place { offset: 16 },
            again: Place { offset: 20 },
        },
    ),
    (
        "DefineMacro \"m\" \"a\": IsAnyRead a.\nAxiom \"x\": ExpandMacro m.",
        (2, 24),
        FaultKind::MacroArguments {
            found: 0,
            wanted: 1,
        },
    ),
    (
        "Axiom \"x\": ExpandMacro m.\nDefineMacro \"m\": True.\nDefineMacro \"m\" \"a\": True.",
        (3, 13),
        FaultKind::MacroAgain {
            first: Place { offset: 38 },
            again: Place { offset: 61 },
        },
    ),
    (
        "Axiom \"x\": Shared i.\nAxiom \"y\": ExpandMacro m.",
        (2, 24),
        FaultKind::MacroUnknown,
    ),
    (
        "Axiom \"x\": forall cores \"c\", IsAnyRead c.",
        (1, 40),
        FaultKind::WrongSort,
    ),
    (
        "Axiom \"x\": OnCore 64 i.",
        (1, 19),
        FaultKind::CoreNumber { number: 64 },
    ),
    (
        "Axiom \"x\": Shared i.",
        (1, 12),
        FaultKind::PredicateUnknown,
    ),
    (
        "Axiom \"x\": IsAnyRead.",
        (1, 12),
        FaultKind::Arity {
            found: 0,
            wanted: 1,
        },
    ),
    (
        "Axiom \"n\": NodeExists (i, S).",
        (1, 24),
        FaultKind::Unbound,
    ),
    (
        "Axiom \"n\": forall microops \"i\", NodeExists (i, S).",
        (1, 48),
        FaultKind::StageUnknown,
    ),
];

/// What a model's fault is compared by: its line, its column, and what is told of it.
type Placed = (u32, u32, Told);

/// The first fault of a model with its line and column, or None where it has none.
fn fault(alloc: Global, text: &[u8]) -> Result<Option<Placed>, Memory> {
    if text.len() > 1_048_576 {
        return Err(Memory);
    }
    match read_model(alloc, text) {
        Ok(_) => Ok(None),
        Err(FrontEnd::Memory) => Err(Memory),
        Err(FrontEnd::Refused(fault)) => Ok(place_fault(text, fault)),
    }
}

/// None where the fault does not stand in the model.
fn place_fault(text: &[u8], fault: InputFault) -> Option<Placed> {
    if fault.file != Which::Model || fault.place.offset as usize > text.len() {
        return None;
    }
    if text.len() > 1_048_576 {
        return None;
    }
    let (line, column) = line_col(text, fault.place);
    Some((line, column, tell_fault(fault.kind)))
}

/// Whether this is the first fault of the model, or it has none.
fn has_fault(
    alloc: Global,
    text: &[u8],
    want: Option<(u32, u32, FaultKind)>,
) -> Result<bool, Memory> {
    let found = fault(alloc, text)?;
    match want {
        Some((line, column, kind)) => Ok(found == Some((line, column, tell_fault(kind)))),
        None => Ok(found == None),
    }
}

#[test]
fn a_model_is_refused_at_its_first_fault(rt: HostRuntime) {
    for (text, (line, column), kind) in FAULTS {
        let want = Some((*line, *column, *kind));
        let is_so = has_fault(rt.alloc(), text.as_bytes(), want);
        assert!(rt; is_so.unwrap_or(false), "{text}");
    }
}

const DEEP: FaultKind = FaultKind::Depth { limit: 128 };

const VARIABLES: FaultKind = FaultKind::TooManyVariables { limit: 32 };

const TOO_DEEP: FaultKind = FaultKind::TooDeep { limit: 512 };

const TOO_BIG: FaultKind = FaultKind::TooBig { limit: 1_000_000 };

const CORE_64: FaultKind = FaultKind::CoreNumber { number: 64 };

/// What stands in front of the 997 nodes of the macro `k`, which is of the size 999.
const NODES: &str = "StageName 0 \"S\".\nDefineMacro \"k\": forall microops \"i\", NodesExist [";

/// A model, and its fault where it passes a limit.
const LIMITS: &[(Pieces, Option<(u32, u32, FaultKind)>)] = &[
    (&[("Axiom \"d\": ", 1), ("~", 128), ("True.", 1)], None),
    (
        &[("Axiom \"d\": ", 1), ("~", 129), ("True.", 1)],
        Some((1, 140, DEEP)),
    ),
    // each body begins with none open
    (
        &[
            ("DefineMacro \"m\": ", 1),
            ("~", 128),
            ("True.\nAxiom \"d\": ", 1),
            ("~", 128),
            ("True.", 1),
        ],
        None,
    ),
    (
        &[("DefineMacro \"m\": ", 1), ("~", 129), ("True.", 1)],
        Some((1, 146, DEEP)),
    ),
    // a core that a macro gets
    (
        &[(
            "DefineMacro \"m\" \"c\": forall microops \"i\", OnCore c i.\nAxiom \"x\": ExpandMacro m 63.",
            1,
        )],
        None,
    ),
    (
        &[(
            "DefineMacro \"m\" \"c\": forall microops \"i\", OnCore c i.\nAxiom \"x\": ExpandMacro m 64.",
            1,
        )],
        Some((2, 26, CORE_64)),
    ),
    (
        &[
            ("Axiom \"x\": ", 1),
            ("forall microops \"i\", ", 32),
            ("True.", 1),
        ],
        None,
    ),
    (
        &[
            ("Axiom \"x\": ", 1),
            ("forall microops \"i\", ", 33),
            ("True.", 1),
        ],
        Some((1, 684, VARIABLES)),
    ),
    // a parameter is a variable in scope too
    (
        &[
            ("DefineMacro \"m\" \"a\": IsAnyRead a.\nAxiom \"x\": ", 1),
            ("forall microops \"i\", ", 31),
            ("ExpandMacro m i.", 1),
        ],
        None,
    ),
    (
        &[
            ("DefineMacro \"m\" \"a\": IsAnyRead a.\nAxiom \"x\": ", 1),
            ("forall microops \"i\", ", 32),
            ("ExpandMacro m i.", 1),
        ],
        Some((2, 684, VARIABLES)),
    ),
    (
        &[
            (NODES, 1),
            ("(i, S);", 997),
            ("].\n", 1),
            ("Axiom \"a\": ExpandMacro k.\n", 1000),
        ],
        None,
    ),
    (
        &[
            (NODES, 1),
            ("(i, S);", 997),
            ("].\n", 1),
            ("Axiom \"a\": ExpandMacro k.\n", 1000),
            ("Axiom \"b\": True.\n", 1),
        ],
        Some((1003, 1, TOO_BIG)),
    ),
    // an empty list is of the size 1
    (
        &[
            (NODES, 1),
            ("(i, S);", 997),
            ("].\n", 1),
            ("Axiom \"a\": ExpandMacro k.\n", 999),
            ("Axiom \"b\": NodesExist [].\n", 500),
            ("Axiom \"c\": AddEdges [].\n", 500),
        ],
        None,
    ),
    (
        &[
            (NODES, 1),
            ("(i, S);", 997),
            ("].\n", 1),
            ("Axiom \"a\": ExpandMacro k.\n", 999),
            ("Axiom \"b\": NodesExist [].\n", 500),
            ("Axiom \"c\": AddEdges [].\n", 501),
        ],
        Some((2002, 1, TOO_BIG)),
    ),
];

/// The same of the model of these pieces.
fn have_fault(
    alloc: Global,
    pieces: &[(&'static str, usize)],
    want: Option<(u32, u32, FaultKind)>,
) -> Result<bool, Memory> {
    let text = join_pieces(alloc, pieces)?;
    has_fault(alloc, &text, want)
}

#[test]
fn a_model_may_reach_a_limit_and_not_pass_it(rt: HostRuntime) {
    for (pieces, want) in LIMITS {
        let are_so = have_fault(rt.alloc(), pieces, *want);
        assert!(rt; are_so.unwrap_or(false), "{pieces:?}");
    }
}

const ONCE: &[&'static str] = &["~ExpandMacro m"];

const TWICE: &[&'static str] = &["ExpandMacro m", " /\\ ExpandMacro m"];

/// How many macros there are after `m0`, what the body of each is, the number of the macro before it
/// after each piece, the axioms, and the fault where one of them passes a limit.
const CHAINS: &[(
    u64,
    &'static [&'static str],
    &'static str,
    Option<(u32, u32, FaultKind)>,
)] = &[
    // heights 511, 512 and 513
    (255, ONCE, "Axiom \"x\": ExpandMacro m255.", None),
    (255, ONCE, "Axiom \"x\": ~ExpandMacro m255.", None),
    (
        256,
        ONCE,
        "Axiom \"x\": ExpandMacro m256.",
        Some((258, 1, TOO_DEEP)),
    ),
    // sizes 524,286 and 1,048,574
    (17, TWICE, "Axiom \"x\": ExpandMacro m17.", None),
    (
        18,
        TWICE,
        "Axiom \"x\": ExpandMacro m18.",
        Some((20, 1, TOO_BIG)),
    ),
    // of one axiom the height is judged before the size
    (
        256,
        TWICE,
        "Axiom \"x\": ExpandMacro m256.",
        Some((258, 1, TOO_DEEP)),
    ),
    // the axioms are judged in their order
    (
        256,
        TWICE,
        "Axiom \"x\": ExpandMacro m18.\nAxiom \"y\": ExpandMacro m256.",
        Some((258, 1, TOO_BIG)),
    ),
    // a macro that no axiom reaches is not judged
    (256, TWICE, "Axiom \"x\": ExpandMacro m0.", None),
];

fn put_macro(text: &mut Vec<u8>, number: u64, body: &[&'static str]) -> Result<(), Memory> {
    put(text, b"DefineMacro \"m")?;
    put_number(text, number)?;
    put(text, b"\": ")?;
    for piece in body {
        put(text, piece.as_bytes())?;
        put_number(text, number.saturating_sub(1))?;
    }
    put(text, b".\n")
}

fn put_chain(text: &mut Vec<u8>, links: u64, body: &[&'static str]) -> Result<(), Memory> {
    put(text, b"DefineMacro \"m0\": True.\n")?;
    for before in 0..links {
        put_macro(text, before + 1, body)?;
    }
    Ok(())
}

/// The chain, and the axioms after it.
fn chain(
    alloc: Global,
    links: u64,
    body: &[&'static str],
    axioms: &str,
) -> Result<Vec<u8>, Memory> {
    let mut text = Vec::new(alloc);
    put_chain(&mut text, links, body)?;
    put(&mut text, axioms.as_bytes())?;
    Ok(text)
}

/// Whether this is the first fault of a chain with axioms after it, or it has none.
fn has_chain_fault(
    alloc: Global,
    (links, body): (u64, &[&'static str]),
    axioms: &str,
    want: Option<(u32, u32, FaultKind)>,
) -> Result<bool, Memory> {
    let text = chain(alloc, links, body, axioms)?;
    has_fault(alloc, &text, want)
}

#[test]
fn an_expansion_is_judged_before_it_is_made(rt: HostRuntime) {
    for (links, body, axioms, want) in CHAINS {
        let is_so = has_chain_fault(rt.alloc(), (*links, *body), axioms, *want);
        assert!(rt; is_so.unwrap_or(false), "{axioms}");
    }
}

/// An argument of macro `other` is named as a quantifier inside the macro is.
const SAME_NAME: &[u8] = b"DefineMacro \"other\" \"a\": exists microop \"w\", ~SameMicroop w a.
Axiom \"x\": forall microops \"w\", ExpandMacro other w.
StageName 3 \"S\".
";

/// Each stage, and each axiom as `show_closed` writes it.
fn show_model(out: &mut Vec<u8>, model: &ModelFront) -> Result<(), Memory> {
    for stage in model.stages.as_slice() {
        put_number(out, stage.number as u64)?;
        put(out, stage.name.as_slice())?;
        put(out, b" ")?;
    }
    for axiom in model.axioms.as_slice() {
        show_closed(out, &axiom.body)?;
    }
    Ok(())
}

fn is_shown(alloc: Global, model: &ModelFront, want: &str) -> Result<bool, Memory> {
    let mut out = Vec::new(alloc);
    show_model(&mut out, model)?;
    Ok(out.as_slice() == want.as_bytes())
}

/// Whether the text is a model that is shown so.
fn is_read_so(alloc: Global, text: &[u8], want: &str) -> Result<bool, Memory> {
    if text.len() > 1_048_576 {
        return Ok(false);
    }
    match read_model(alloc, text) {
        Ok(model) => is_shown(alloc, &model, want),
        Err(_) => Ok(false),
    }
}

#[test]
fn an_argument_is_not_captured(rt: HostRuntime) -> Result<(), Fail> {
    let want = "3S Forall(microop, Bind( #0: Exists(microop, Not(SameMicroop #2 #1))))";
    assert!(rt; is_read_so(rt.alloc(), SAME_NAME, want)?);
    Ok(())
}
