//! What several tables need: texts read as far as a test asks.
use crate::formula_texts::tell_fault;
use example_texts::EMPTY;
use pc_common::{FaultKind, InputFault, Place, Which};
use pc_front::{FrontEnd, front};
use pc_ground::Front;
use pc_syntax::ModelFile;
use std::alloc::Global;
use uspec_lexer::{Tokens, tokens};
use uspec_parser::parse_model;

/// The model as written, or None where the text is none.
pub(crate) fn written_model(alloc: Global, text: &[u8]) -> Option<ModelFile> {
    if text.len() > 1_048_576 {
        return None;
    }
    match tokens(alloc, text) {
        Ok(tokens) => parse_tokens(alloc, &tokens),
        Err(_) => None,
    }
}

fn parse_tokens(alloc: Global, tokens: &Tokens<'_>) -> Option<ModelFile> {
    match parse_model(alloc, tokens) {
        Ok(model) => Some(model),
        Err(_) => None,
    }
}

/// What both files say, or why they say nothing.
pub(crate) fn front_of(alloc: Global, model: &str, test: &str) -> Result<Front, FrontEnd> {
    let (model, test) = (model.as_bytes(), test.as_bytes());
    if model.len() > 1_048_576 || test.len() > 1_048_576 {
        return Err(FrontEnd::Memory);
    }
    front(alloc, model, test)
}

/// Whether the model or the test is refused, the first fault of both being this.
pub(crate) fn are_refused(alloc: Global, model: &str, test: &str, fault: InputFault) -> bool {
    match front_of(alloc, model, test) {
        Err(FrontEnd::Refused(found)) => is_same(found, fault),
        _ => false,
    }
}

fn is_same(one: InputFault, other: InputFault) -> bool {
    one.file == other.file
        && one.place == other.place
        && tell_fault(one.kind) == tell_fault(other.kind)
}

/// Whether the model is refused, its first fault being this.
pub(crate) fn is_refused_at(alloc: Global, model: &str, offset: u32, kind: FaultKind) -> bool {
    let fault = InputFault {
        file: Which::Model,
        place: Place { offset },
        kind,
    };
    are_refused(alloc, model, EMPTY, fault)
}
