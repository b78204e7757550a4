ghost use Rattle.std.specs.Prelude.{◌≡◌, ◌↔◌, Bool, IsTrue, IfOk, OnOk, ◌++◌, reverse};
ghost use Rattle.ll_grammar.specs.Rules.{Rules};
ghost use Rattle.ll_grammar.specs.Predictable.{IsPredictable, HasTexts};
ghost use Rattle.ll_grammar.specs.Predictions.{IsPush};

use pc_common::Memory;

/// The class of a token: a terminal of the grammar. Two tokens of one class are alike to it.
pub trait TokenClass: Copy + 'static {
    /// Whether the two are one class. For an enum with a derived `PartialEq` it is `self == other`.
    fn is_same(self, other: Self) -> bool
        ensures { IsTrue result ↔ (self ≡ other) };
}

/// One place of a rule's body: a token of this class, or a text of this nonterminal.
#[derive(Clone, Copy)]
pub enum Symbol<C, N> {
    Terminal(C),
    Nonterminal(N),
}

/// What a part does with the next token.
#[derive(Clone, Copy)]
pub enum Prediction {
    /// The part does not begin with the token.
    Absent,
    /// It does, and what stands after the token waits on the stack.
    Pushed,
    /// It does, but there the token stands too deep.
    Deep,
}

/// An LL(1) grammar. `Self` is the enum of its parts, the nonterminals. A part may carry numbers, as
/// how many brackets are open round it: then each value is a part of its own, with its own rules.
///
/// `rules` is the grammar as a table, and `follow` says which classes may come next after a part.
/// `specs/LawsOfTables.antt` proves the two laws by computation.
pub trait Grammar<C: TokenClass>: Copy + 'static {
    ghost rules: { Rules C Self };

    ghost follow: { Self → C → Bool };

    /// Where the part begins with a token of this class, puts what stands after the token on the
    /// stack, the next symbol on top; [`push!`] does so for a body in the order of reading.
    /// Where it does not, leaves the stack as it was. `Deep` is for a token with which the part
    /// begins: any other is `Absent` at every depth. `Err` is for want of memory alone.
    fn push(self, class: C, stack: &mut Vec<Symbol<C, Self>>) -> Result<Prediction, Memory>
        ensures { IfOk result (IsPush rules self class stack.old.items stack.new.items) };

    /// Whether the part may have no token at all.
    fn is_nullable(self) -> bool
        ensures { result ≡ rules.is_nullable self };

    // One token in view decides: a part that may end begins with no class that may follow it.
    ghost predictable: { IsPredictable rules follow };

    // No part is without texts. Else tokens could be read that begin none.
    ghost has_texts: { HasTexts rules };
}

/// Puts the body of a rule on the stack, its first symbol on top, and returns `Pushed`.
/// `Err` is for want of memory; then some of the body may be on the stack.
pub fn push_body<C: Copy, N: Copy>(
    stack: &mut Vec<Symbol<C, N>>,
    body: &[Symbol<C, N>],
) -> Result<Prediction, Memory>
    ensures pushed { IfOk result (λ prediction. prediction ≡ Prediction.Pushed) }
    ensures items { OnOk result (stack.new.items ≡ stack.old.items ++ reverse body.now) }
{
    for at in (0..body.len()).rev() {
        stack.push(body[at])?;
    }
    Ok(Prediction::Pushed)
}

/// [`push_body`] of a body that is written as it is read: a class by its name, a part in brackets, as in
/// `push!(stack; Number Quoted Dot [Items])`.
#[macro_export]
macro_rules! push {
    ($stack:expr; $($symbol:tt)*) => {
        $crate::push_body($stack, &[$($crate::symbol!($symbol)),*])
    };
}

/// One place of a body, as [`push!`] takes it.
#[macro_export]
macro_rules! symbol {
    ([$part:expr]) => {
        $crate::Symbol::Nonterminal($part)
    };
    ($class:ident) => {
        $crate::Symbol::Terminal($class)
    };
}
