//! A model's names by their numbers.
use super::texts::written_model;
use crate::formula_texts::{put, show};
use macro_expand::with_short_names;
use pc_common::Memory;
use pc_syntax::{Item, ModelFile};
use std::alloc::Global;
use std::test::Fail;

/// A model with a long name, and the bodies of its macros and axioms as `show` writes them, one a line, with a digit in
/// place of each number, and nothing in place of number 0.
const NUMBERED: &[(&'static str, &'static str)] = &[
    // stages 0 and 1, then a macro, its parameters and what its body names, and what the axiom names
    (
        "StageName 0 \"Fetch\". StageName 1 \"a_stage_with_a_name_of_38_bytes_in_all\".
DefineMacro \"ordered\" \"first\" \"second\":
  EdgeExists ((first, a_stage_with_a_name_of_38_bytes_in_all), (second, (owner, Fetch))).
Axiom \"x\": forall microops \"load\", exists cores \"owner\", OnCore owner load /\\ ExpandMacro ordered load 3.",
        "Edges[3:1>4@5:;]\nForall(microop 6, Exists(core 5, And(OnCore 5 6, Expand 2 6 3)))\n",
    ),
    // what a predicate takes as it stands keeps its bytes, and so does what no predicate takes
    (
        "Axiom \"x\": exists microop \"a_variable_with_a_name_of_40_bytes_or_so\",
  AccessType Fence a_variable_with_a_name_of_40_bytes_or_so /\\ NodesExist [] /\\ IsNothing a.",
        "Exists(microop , And(AccessType Fence , And(Nodes[], IsNothing a)))\n",
    ),
];

/// Puts the bodies of the items, one a line.
fn put_bodies(text: &mut Vec<u8>, model: &ModelFile) -> Result<(), Memory> {
    for item in model.items.as_slice() {
        match item {
            Item::Axiom { body, .. } | Item::Macro { body, .. } => show(text, body)?,
        }
        put(text, b"\n")?;
    }
    Ok(())
}

/// The text without zeros, and with its digit in place of each other byte below ten.
fn with_digits(alloc: Global, text: &[u8]) -> Result<Vec<u8>, Memory> {
    let mut digits = Vec::new(alloc);
    for byte in text {
        if *byte >= 10 {
            digits.push(*byte)?;
        } else if *byte > 0 {
            digits.push(*byte + b'0')?;
        }
    }
    Ok(digits)
}

/// Whether the model's bodies are so with its names' numbers.
fn is_numbered(alloc: Global, text: &str, want: &str) -> Result<bool, Memory> {
    let Some(model) = written_model(alloc, text.as_bytes()) else {
        return Ok(false);
    };
    let Some(short) = with_short_names(alloc, &model)? else {
        return Ok(false);
    };
    let mut bodies = Vec::new(alloc);
    put_bodies(&mut bodies, &short)?;
    let digits = with_digits(alloc, &bodies)?;
    Ok(digits.as_slice() == want.as_bytes())
}

#[test]
fn each_name_becomes_its_number(rt: HostRuntime) {
    for (text, want) in NUMBERED {
        let is_so = is_numbered(rt.alloc(), text, want);
        assert!(rt; is_so.unwrap_or(false), "{want}");
    }
}

/// Names of 32 bytes are looked up as they are.
const SHORT_ENOUGH: &str = "Axiom \"x\": exists core \"abcdefghijklmnopqrstuvwxyz_12345\", True.";

/// Whether the model stays as it is.
fn stays(alloc: Global, text: &str) -> Result<bool, Memory> {
    let Some(model) = written_model(alloc, text.as_bytes()) else {
        return Ok(false);
    };
    Ok(with_short_names(alloc, &model)?.is_none())
}

#[test]
fn a_model_without_a_long_name_stays(rt: HostRuntime) -> Result<(), Fail> {
    assert!(rt; stays(rt.alloc(), SHORT_ENOUGH)?);
    Ok(())
}
