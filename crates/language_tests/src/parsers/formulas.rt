//! Tokens to trees, and copies of trees. Tokens are numbered from 0.
use crate::formula_texts::{Pieces, join_pieces, put, put_number, show};
use pc_common::{Listed, Memory, Place, Shared};
use pc_syntax::{Arg, Args, Formula, Item, ModelFile, Name, Names, Pred, StageItem, Takes, Word};
use std::alloc::Global;
use std::test::Fail;
use uspec_lexer::tokens;
use uspec_parser::{
    ParseFault, formula_texts, model_texts, one_answer, one_formula_tree, one_model_tree,
    parse_formula, parse_model, split_of_operands,
};

enum Answer {
    /// The tree, as `show` writes it.
    Tree(Pieces),
    Refused(ParseFault),
}

use Answer::{Refused, Tree};

const FORMULAS: &[(Pieces, Answer)] = &[
    (&[], Refused(ParseFault::Syntax(0))),
    (
        &[("True => True => False", 1)],
        Tree(&[("Implies(True, Implies(True, False))", 1)]),
    ),
    (
        &[("~True /\\ False \\/ True", 1)],
        Tree(&[("Or(And(Not(True), False), True)", 1)]),
    ),
    (
        &[("forall microop \"i\", True /\\ True", 1)],
        Tree(&[("Forall(microop i, And(True, True))", 1)]),
    ),
    (
        &[("(forall cores \"c\", True) /\\ True", 1)],
        Tree(&[("And(Forall(core c, True), True)", 1)]),
    ),
    // a predicate with one argument
    (&[("True False", 1)], Tree(&[("True False", 1)])),
    (&[("True 7 forall", 1)], Refused(ParseFault::Syntax(2))),
    (
        &[("forall threads \"t\", True", 1)],
        Refused(ParseFault::Syntax(1)),
    ),
    (&[("AddEdges [;]", 1)], Refused(ParseFault::Syntax(2))),
    (
        &[("NodeExists (i, (c))", 1)],
        Refused(ParseFault::Syntax(6)),
    ),
    (&[("(", 128), ("True", 1), (")", 128)], Tree(&[("True", 1)])),
    (&[("(", 129)], Refused(ParseFault::Depth(128))),
    (
        &[("True /\\ ", 128), ("True", 1)],
        Tree(&[("And(True, ", 128), ("True", 1), (")", 128)]),
    ),
    (
        &[("True /\\ ", 129), ("True", 1)],
        Refused(ParseFault::Depth(257)),
    ),
    // a looser operator ends the tighter ones of its list, and is open itself
    (
        &[
            ("True /\\ ", 127),
            ("True \\/ ", 1),
            ("True /\\ ", 127),
            ("True", 1),
        ],
        Tree(&[
            ("Or(", 1),
            ("And(True, ", 127),
            ("True", 1),
            (")", 127),
            (", ", 1),
            ("And(True, ", 127),
            ("True", 1),
            (")", 127),
            (")", 1),
        ]),
    ),
    (
        &[
            ("True /\\ ", 127),
            ("True \\/ ", 1),
            ("True /\\ ", 128),
            ("True", 1),
        ],
        Refused(ParseFault::Depth(511)),
    ),
    // a tighter operator ends none
    (
        &[("True => ", 128), ("True \\/ True", 1)],
        Refused(ParseFault::Depth(257)),
    ),
    // `~` and brackets end with what they stand around, and the operators beside them don't
    (
        &[("~True /\\ ", 128), ("~True", 1)],
        Refused(ParseFault::Depth(384)),
    ),
    (
        &[("(True) /\\ ", 128), ("True", 1)],
        Tree(&[("And(True, ", 128), ("True", 1), (")", 128)]),
    ),
    (
        &[("forall microop \"i\", ", 128), ("True", 1)],
        Tree(&[("Forall(microop i, ", 128), ("True", 1), (")", 128)]),
    ),
    (
        &[("forall microop \"i\", ", 129), ("True", 1)],
        Refused(ParseFault::Depth(512)),
    ),
    // one edge or node is a list of one, and labels and colours are read and dropped
    (
        &[("AddEdge ((i, S), (j, (3, T)), \"po\", \"blue\")", 1)],
        Tree(&[("Edges[i:S>j@3:T;]", 1)]),
    ),
    (
        &[("NodesExist [(i, S); (i, (c, T));]", 1)],
        Tree(&[("Nodes[i:S;i@c:T;]", 1)]),
    ),
    (&[("EdgesExist []", 1)], Tree(&[("Edges[]", 1)])),
    // a quantifier is the last operand, or stands in brackets
    (
        &[("~exists core \"c\", True => False", 1)],
        Tree(&[("Not(Exists(core c, Implies(True, False)))", 1)]),
    ),
    (
        &[("True /\\ forall microop \"i\", True \\/ True", 1)],
        Tree(&[("And(True, Forall(microop i, Or(True, True)))", 1)]),
    ),
    // nothing stands after the formula
    (&[("True.", 1)], Refused(ParseFault::Syntax(1))),
    // a reserved word is no name
    (&[("ExpandMacro forall", 1)], Refused(ParseFault::Syntax(1))),
];

fn is_shown_as(alloc: Global, formula: &Formula, want: &[u8]) -> Result<bool, Memory> {
    let mut out = Vec::new(alloc);
    show(&mut out, formula)?;
    Ok(out.as_slice() == want)
}

fn is_shown(
    alloc: Global,
    formula: &Formula,
    want: &[(&'static str, usize)],
) -> Result<bool, Memory> {
    let want = join_pieces(alloc, want)?;
    is_shown_as(alloc, formula, &want)
}

fn is_answer(
    alloc: Global,
    parsed: &Result<Formula, ParseFault>,
    answer: &Answer,
) -> Result<bool, Memory> {
    match (parsed, answer) {
        (Ok(tree), Tree(want)) => is_shown(alloc, tree, want),
        (Err(fault), Refused(want)) => Ok(fault == want),
        _ => Ok(false),
    }
}

/// Whether the text has this answer as a formula.
fn has_answer(alloc: Global, text: &[u8], answer: &Answer) -> Result<bool, Memory> {
    if text.len() > 10_000 {
        return Ok(false);
    }
    match tokens(alloc, text) {
        Ok(read) => is_answer(alloc, &parse_formula(alloc, &read), answer),
        Err(_) => Ok(false),
    }
}

/// The same of the text of these pieces.
fn have_answer(
    alloc: Global,
    pieces: &[(&'static str, usize)],
    answer: &Answer,
) -> Result<bool, Memory> {
    let text = join_pieces(alloc, pieces)?;
    has_answer(alloc, &text, answer)
}

#[test]
fn a_formula_has_the_tree_or_the_fault_of_the_grammar(rt: HostRuntime) {
    for (pieces, answer) in FORMULAS {
        let are_so = have_answer(rt.alloc(), pieces, answer);
        assert!(rt; are_so.unwrap_or(false), "{pieces:?}");
    }
}

/// Every form that a text can have.
const ALL_FORMS: &str =
    "forall microop \"i\", exists core \"c\", ~((IsAnyRead i /\\ NodeExists (i, (5, S)))
  \\/ AddEdge ((i, S), (a, (c, S))) => ExpandMacro m 3 i)";

const ALL_SHOWN: &str =
    "Bind(a b = c 4: Forall(microop i, Exists(core c, Not(Implies(Or(And(IsAnyRead i, Nodes[i@5:S;]), Edges[i:S>a@c:S;]), Expand m 3 i)))))";

const AT: Place = Place { offset: 7 };

fn name(alloc: Global, text: &[u8]) -> Result<Name, Memory> {
    Shared::from_listed(Listed::from_vec(text.to_vec(alloc)?))
}

/// `a` and `b`.
fn names(alloc: Global) -> Result<Names, Memory> {
    let mut names = Listed::new(alloc);
    for text in ["a", "b"] {
        names.push(name(alloc, text.as_bytes())?)?;
    }
    Shared::from_listed(names)
}

/// `c` and 4.
fn args(alloc: Global) -> Result<Args, Memory> {
    let core = Arg::Word(Word {
        name: name(alloc, b"c")?,
        at: AT,
    });
    let args = vec![in alloc; core, Arg::Number(4, AT)]?;
    Shared::from_listed(Listed::from_vec(args))
}

fn all_forms(alloc: Global) -> Result<Formula, ParseFault> {
    let text = ALL_FORMS.as_bytes();
    if text.len() > 1000 {
        return Err(ParseFault::Memory);
    }
    match tokens(alloc, text) {
        Ok(read) => parse_formula(alloc, &read),
        Err(_) => Err(ParseFault::Memory),
    }
}

/// That formula with `a` bound to `c`, and `b` to 4.
fn bind_formula(alloc: Global) -> Result<Formula, ParseFault> {
    let names = names(alloc)?;
    let args = args(alloc)?;
    let body = all_forms(alloc)?;
    match Formula::bind(alloc, AT, names, args, body) {
        Ok(formula) => Ok(formula),
        Err(Memory) => Err(ParseFault::Memory),
    }
}

#[test]
fn a_maker_makes_the_form_that_is_asked_for(rt: HostRuntime) -> Result<(), Fail> {
    let formula = bind_formula(rt.alloc())?;
    assert!(rt; is_shown_as(rt.alloc(), &formula, ALL_SHOWN.as_bytes())?);
    Ok(())
}

/// A text, and the model as `show_items` writes it, or the fault.
const MODELS: &[(&'static str, Result<&'static str, ParseFault>)] = &[
    ("", Ok("")),
    (
        "StageName 0 \"Exec\". StageName 7 \"Mem\".
DefineMacro \"before\" \"a\" \"b\":
  AddEdges [((a, Exec), (b, Exec), \"po\", \"blue\"); ((a, Mem), (b, Mem));].
Axiom \"all in order\": forall microops \"i\", exists cores \"c\",
  ExpandMacro before i 3 \\/ NodeExists (i, (c, Mem)).
",
        Ok(
            "stage 0 Exec
stage 7 Mem
macro before a b: Edges[a:Exec>b:Exec;a:Mem>b:Mem;]
axiom: Forall(microop i, Exists(core c, Or(Expand before i 3, Nodes[i@c:Mem;])))
",
        ),
    ),
    // a title may be any text
    ("Axiom \"forall\": True.", Ok("axiom: True\n")),
    ("Axiom \"\": True.", Ok("axiom: True\n")),
    ("Axiom \"1a\": True.", Ok("axiom: True\n")),
    // it ends at the first token of no item
    ("Axiom \"x\": True. True.", Err(ParseFault::Syntax(5))),
    ("Axiom \"x\": True", Err(ParseFault::Syntax(4))),
    ("StageName \"S\" 0.", Err(ParseFault::Syntax(1))),
    // a stage, a macro, a parameter and a variable have names, and these are not reserved
    ("StageName 0 \"microop\".", Err(ParseFault::Syntax(2))),
    ("StageName 0 \"\".", Err(ParseFault::Syntax(2))),
    ("StageName 0 \"1a\".", Err(ParseFault::Syntax(2))),
    ("DefineMacro \"core\": True.", Err(ParseFault::Syntax(1))),
    ("DefineMacro \"\": True.", Err(ParseFault::Syntax(1))),
    ("DefineMacro \"1a\": True.", Err(ParseFault::Syntax(1))),
    (
        "DefineMacro \"m\" \"exists\": True.",
        Err(ParseFault::Syntax(2)),
    ),
    (
        "DefineMacro \"m\" \"a b\": True.",
        Err(ParseFault::Syntax(2)),
    ),
    ("DefineMacro \"m\" \"\": True.", Err(ParseFault::Syntax(2))),
    (
        "DefineMacro \"m\" \"a\" \"1a\": True.",
        Err(ParseFault::Syntax(3)),
    ),
    (
        "Axiom \"x\": forall microops \"forall\", True.",
        Err(ParseFault::Syntax(5)),
    ),
    (
        "Axiom \"x\": exists cores \"\", True.",
        Err(ParseFault::Syntax(5)),
    ),
    (
        "Axiom \"x\": forall microops \"1a\", True.",
        Err(ParseFault::Syntax(5)),
    ),
];

fn show_stage(out: &mut Vec<u8>, stage: &StageItem) -> Result<(), Memory> {
    put(out, b"stage ")?;
    put_number(out, stage.number)?;
    put(out, b" ")?;
    put(out, stage.name.name.as_slice())?;
    put(out, b"\n")
}

fn show_item(out: &mut Vec<u8>, item: &Item) -> Result<(), Memory> {
    match item {
        Item::Axiom { body, .. } => {
            put(out, b"axiom: ")?;
            show(out, body)?;
        }
        Item::Macro {
            name,
            parameters,
            body,
        } => {
            put(out, b"macro ")?;
            put(out, name.name.as_slice())?;
            for parameter in parameters.as_slice() {
                put(out, b" ")?;
                put(out, parameter.name.as_slice())?;
            }
            put(out, b": ")?;
            show(out, body)?;
        }
    }
    put(out, b"\n")
}

fn show_items(out: &mut Vec<u8>, model: &ModelFile) -> Result<(), Memory> {
    for stage in model.stages.as_slice() {
        show_stage(out, stage)?;
    }
    for item in model.items.as_slice() {
        show_item(out, item)?;
    }
    Ok(())
}

/// Whether the model is shown so, an item a line.
fn is_model_shown(alloc: Global, model: &ModelFile, want: &str) -> Result<bool, Memory> {
    let mut out = Vec::new(alloc);
    show_items(&mut out, model)?;
    Ok(out.as_slice() == want.as_bytes())
}

fn is_model_answer(
    alloc: Global,
    parsed: &Result<ModelFile, ParseFault>,
    answer: &Result<&'static str, ParseFault>,
) -> Result<bool, Memory> {
    match (parsed, answer) {
        (Ok(model), Ok(want)) => is_model_shown(alloc, model, want),
        (Err(fault), Err(want)) => Ok(fault == want),
        _ => Ok(false),
    }
}

/// Whether the text has this answer as a model.
fn has_model_answer(
    alloc: Global,
    text: &[u8],
    answer: &Result<&'static str, ParseFault>,
) -> Result<bool, Memory> {
    if text.len() > 10_000 {
        return Ok(false);
    }
    match tokens(alloc, text) {
        Ok(read) => is_model_answer(alloc, &parse_model(alloc, &read), answer),
        Err(_) => Ok(false),
    }
}

#[test]
fn a_model_has_its_items_in_their_order_or_the_fault_of_the_grammar(rt: HostRuntime) {
    for (text, want) in MODELS {
        let is_so = has_model_answer(rt.alloc(), text.as_bytes(), want);
        assert!(rt; is_so.unwrap_or(false), "{text}");
    }
}

/// A law does nothing, and can be called by anyone who wants what it says.
#[test]
fn each_law_can_be_called(rt: HostRuntime) -> Result<(), Fail> {
    let read = tokens(rt.alloc(), b"True")?;
    split_of_operands();
    one_model_tree(&read);
    one_formula_tree(&read);
    model_texts(&read);
    formula_texts(&read);
    one_answer(&read);
    Ok(())
}

use Takes::{Core, Op, Plain};

/// A predicate's name, the predicate, and what it takes.
type Row = (&'static [u8], Pred, &'static [Takes]);

const PREDICATES: &[Row] = &[
    (b"True", Pred::True, &[]),
    (b"False", Pred::False, &[]),
    (b"IsAnyRead", Pred::IsAnyRead, &[Op]),
    (b"IsAnyWrite", Pred::IsAnyWrite, &[Op]),
    (b"IsAnyFence", Pred::IsAnyFence, &[Op]),
    (b"AccessType", Pred::AccessType, &[Plain, Op]),
    (b"OnCore", Pred::OnCore, &[Core, Op]),
    (b"SameCore", Pred::SameCore, &[Op, Op]),
    (b"SameThread", Pred::SameThread, &[Op, Op]),
    (b"SameMicroop", Pred::SameMicroop, &[Op, Op]),
    (b"SameInstruction", Pred::SameInstruction, &[Op, Op]),
    (b"SameIntra", Pred::SameIntra, &[Op, Op]),
    (b"ProgramOrder", Pred::ProgramOrder, &[Op, Op]),
    (b"SameVirtualAddress", Pred::SameVirtualAddress, &[Op, Op]),
    (b"SamePhysicalAddress", Pred::SamePhysicalAddress, &[Op, Op]),
    (b"SameVirtualTag", Pred::SameVirtualTag, &[Op, Op]),
    (b"SamePhysicalTag", Pred::SamePhysicalTag, &[Op, Op]),
    (b"SameIndex", Pred::SameIndex, &[Op, Op]),
    (b"SameData", Pred::SameData, &[Op, Op]),
    (
        b"DataFromInitialStateAtPA",
        Pred::DataFromInitialStateAtPA,
        &[Op],
    ),
    (
        b"DataFromFinalStateAtPA",
        Pred::DataFromFinalStateAtPA,
        &[Op],
    ),
    (b"HasDependency", Pred::HasDependency, &[Plain, Op, Op]),
    (b"EntryOf", Pred::EntryOf, &[Op, Op]),
    (b"MapsTagOf", Pred::MapsTagOf, &[Op, Op]),
    (b"MarkedAccessed", Pred::MarkedAccessed, &[Op]),
    (b"MarkedDirty", Pred::MarkedDirty, &[Op]),
];

fn is_named(name: &[u8], pred: Pred, takes: &[Takes]) -> bool {
    for k in 0..pred.arity() {
        if takes.get(k).copied() != Some(pred.takes(k)) {
            return false;
        }
    }
    pred.arity() == takes.len() && pred.name() == name && Pred::of_name(name) == Some(pred)
}

/// The table, which this function alone names: a proof goes through all rows of a table that a function names.
fn predicates() -> &'static [Row] {
    PREDICATES
}

/// Whether the rows have these predicates in their order.
fn have_predicates(rows: &[Row], predicates: &[Pred]) -> bool {
    for k in 0..rows.len() {
        if predicates.get(k).copied() != Some(rows[k].1) {
            return false;
        }
    }
    rows.len() == predicates.len()
}

#[test]
fn the_table_has_all_predicates_in_their_order(rt: HostRuntime) {
    assert!(rt; have_predicates(predicates(), &Pred::ALL));
}

#[test]
fn a_predicate_is_found_by_its_name_and_by_no_other(rt: HostRuntime) {
    for (name, pred, takes) in predicates() {
        assert!(rt; is_named(name, *pred, takes), "{name:?}");
    }
    for text in ["", "true", "Shared", "IsAnyRea", "IsAnyReads"] {
        assert!(rt; Pred::of_name(text.as_bytes()).is_none(), "{text}");
    }
}
