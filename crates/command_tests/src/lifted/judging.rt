//! Lifted refutations judged by the checker, whole and in pieces.
ghost use Rattle.std.specs.Prelude.{◌<◌};

use super::forms::FORMS;
use super::texts::{CONNECTIVES, Judged, LEAVES, PARTS, QUANTIFIERS, Texts};
use lifted_check::{Lifted, LiftedChecker, check_lifted};
use pc_common::Memory;
use pc_front::read_parts;
use pc_ground::Parts;
use std::alloc::Global;
use std::process::Abort;

/// What the text is, fed in pieces of so many bytes.
fn in_pieces(alloc: Global, parts: &Parts, text: &[u8], size: usize) -> Result<Lifted, Memory>
    requires { 0 < size }
{
    let mut checker = LiftedChecker::new(alloc, &parts.case, parts.axioms.as_slice());
    for piece in text.chunks(size) {
        checker = checker.feed(piece)?;
    }
    Ok(checker.finish())
}

/// Whether the text is this, whole and however it is cut.
fn is_found(alloc: Global, parts: &Parts, text: &str, lifted: Lifted) -> bool {
    let bytes = text.as_bytes();
    check_lifted(alloc, &parts.case, parts.axioms.as_slice(), bytes) == Ok(lifted)
        && in_pieces(alloc, parts, bytes, 1) == Ok(lifted)
        && in_pieces(alloc, parts, bytes, 2) == Ok(lifted)
        && in_pieces(alloc, parts, bytes, 7) == Ok(lifted)
}

/// The first text that is something else to these parts.
fn first_other(alloc: Global, parts: &Parts, texts: Texts) -> Option<&'static str> {
    for (text, lifted) in texts {
        if !is_found(alloc, parts, *text, *lifted) {
            return Some(*text);
        }
    }
    None
}

/// The first text that is something else to the model and the test.
fn first_wrong(alloc: Global, (model, test, texts): Judged) -> Option<&'static str> {
    if model.len() > 10_000 || test.len() > 10_000 {
        return Some(model);
    }
    match read_parts(alloc, model.as_bytes(), test.as_bytes()) {
        Ok(parts) => first_other(alloc, &parts, texts),
        Err(_) => Some(model),
    }
}

/// Each text is what its table has it for, whole and however it is cut.
fn each_is_found(rt: &impl Abort, alloc: Global, table: &[Judged]) {
    for judged in table {
        let wrong = first_wrong(alloc, *judged);
        assert!(rt; wrong.is_none(), "{}", wrong.unwrap_or(""));
    }
}

#[test]
fn parts_are_facts(rt: HostRuntime) {
    each_is_found(&rt, rt.alloc(), PARTS);
}

#[test]
fn connectives_are_taken_by_their_signs(rt: HostRuntime) {
    each_is_found(&rt, rt.alloc(), CONNECTIVES);
}

#[test]
fn ranges_are_gone_through(rt: HostRuntime) {
    each_is_found(&rt, rt.alloc(), QUANTIFIERS);
}

#[test]
fn leaves_close_their_branch_alone(rt: HostRuntime) {
    each_is_found(&rt, rt.alloc(), LEAVES);
}

#[test]
fn a_text_without_the_form_is_refused_at_its_line(rt: HostRuntime) {
    each_is_found(&rt, rt.alloc(), FORMS);
}
