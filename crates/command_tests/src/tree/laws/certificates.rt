//! The laws of refutations, and of texts that are judged line by line.
ghost use Rattle.std.specs.Prelude.{⊤};

use line_judge::{Judge, a_text_has_one_answer, no_text_is_whole_and_refused, one_line_is_refused};
use pc_common::Memory;
use tree_check::{one_list_is_left, runs_are_joined};

/// A judge for which any lines are a whole text.
#[derive(Drop)]
struct AnyLines;

impl Judge for AnyLines {
    ghost view = { λ _. record { begins = λ _. ⊤; whole = λ _. ⊤; stands = λ _. ⊤ } };

    ghost stands_begins = { λ _ _ stands. stands };

    ghost begins_first = { λ _ _ _ begun. begun };

    ghost whole_begins = { λ _ _ whole. whole };

    fn step(&mut self, _line: &[u8]) -> Result<bool, Memory> {
        Ok(true)
    }

    fn is_done(&self) -> bool {
        true
    }
}

/// A law does nothing, and can be called by anyone who wants what it says.
#[test]
fn each_law_of_judged_texts_can_be_called(_rt: HostRuntime) {
    no_text_is_whole_and_refused(&AnyLines, b"end\n");
    one_line_is_refused(&AnyLines, b"end\n");
    a_text_has_one_answer(&AnyLines, 16, b"end\n");
}

#[test]
fn each_law_of_refutations_can_be_called(_rt: HostRuntime) {
    runs_are_joined();
    one_list_is_left();
}
