// Laws of the definitions that a feed is stated by. The functions do nothing: their contracts are the laws.
ghost use Rattle.std.specs.Prelude.{◌≡◌, ℕ};
ghost use Rattle.line_judge.specs.Texts.{IsMadeOf};
ghost use Rattle.line_judge.specs.Feeds.{IsRefusedLine, HasOneAnswer};

use super::judge::Judge;

/// A text that has a refused line is not whole.
pub fn no_text_is_whole_and_refused<J: Judge>(judge: &J, text: &[u8])
    ensures { (n : ℕ) → IsMadeOf (J.view judge.now).whole text.now
        → IsRefusedLine (J.view judge.now) text.now n → ⊥ }
{}

/// A text has one refused line at most.
pub fn one_line_is_refused<J: Judge>(judge: &J, text: &[u8])
    ensures { (m n : ℕ) → IsRefusedLine (J.view judge.now) text.now m
        → IsRefusedLine (J.view judge.now) text.now n → m ≡ n }
{}

/// A text has one answer: it is whole, is past the limit, or has this refused line, whatever was read.
pub fn a_text_has_one_answer<J: Judge>(judge: &J, limit: u64, text: &[u8])
    ensures { HasOneAnswer J.view judge.now limit text.now }
{}
