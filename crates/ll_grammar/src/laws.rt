// Laws of the definitions in specs/. Each function does nothing: its contract is the law.
ghost use Rattle.std.specs.Prelude.{◌↔◌};
ghost use Rattle.ll_grammar.specs.Rules.{BeginsText, Derives};
ghost use Rattle.ll_grammar.specs.Texts.{IsText, IsViable};
ghost use Rattle.ll_grammar.specs.FirstFault.{AreDecided, HasAnswer, HasOneAnswer};

use crate::grammar::{Grammar, TokenClass};

/// What begins a text by cases on the rules, with no word of what follows, is what some text begins
/// with: the viable prefixes.
pub fn viable_prefixes<C: TokenClass, N: Grammar<C>>(start: N, classes: &[C])
    ensures { BeginsText N.rules start classes.now ↔ IsViable (IsText (Derives N.rules start)) classes.now }
{}

/// Tokens have an answer, where each two classes are one or are not: they are accepted, or have a
/// first fault.
pub fn some_answer<C: TokenClass, N: Grammar<C>>(start: N, classes: &[C])
    ensures { AreDecided C → HasAnswer (Derives N.rules start) classes.now }
{}

/// Tokens have no two answers.
pub fn one_answer<C: TokenClass, N: Grammar<C>>(start: N, classes: &[C])
    ensures { HasOneAnswer (Derives N.rules start) classes.now }
{}
