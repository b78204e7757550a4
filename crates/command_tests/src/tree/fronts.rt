//! The front of two short texts.
use pc_front::front;
use pc_ground::Front;
use std::alloc::Global;

/// What both files say, or None where they say nothing.
pub(crate) fn front_of(alloc: Global, model: &str, test: &str) -> Option<Front> {
    let (model, test) = (model.as_bytes(), test.as_bytes());
    if model.len() > 1_048_576 || test.len() > 1_048_576 {
        return None;
    }
    front(alloc, model, test).ok()
}
