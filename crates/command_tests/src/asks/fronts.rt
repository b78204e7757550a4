//! What the bytes of three files say.
use ask_command::read_inquiry;
use example_texts::{EMPTY, SOME_OP};
use pc_syntax::ClosedFormula;
use std::alloc::Global;

/// Whether the three say something that may be asked, of so many axioms.
fn says(alloc: Global, model: &str, test: &str, query: &str, axioms: usize) -> bool {
    if model.len() > 10_000 || test.len() > 10_000 || query.len() > 10_000 {
        return false;
    }
    match read_inquiry(alloc, model.as_bytes(), test.as_bytes(), query.as_bytes()) {
        Ok(inquiry) => {
            inquiry.parts.axioms.len() == axioms
                && matches!(inquiry.formula.body, ClosedFormula::Static { .. })
        }
        Err(_) => false,
    }
}

#[test]
fn three_files_say_what_is_asked(rt: HostRuntime) {
    assert!(rt; says(rt.alloc(), SOME_OP, EMPTY, "True", 1));
}
