ghost use Rattle.std.specs.Prelude.{◌≡◌, IfOk, reverse};
ghost use Rattle.std.specs.List.{list_all};
ghost use Rattle.ll_grammar.specs.Rules.{is_nullable_symbol, Derives};
ghost use Rattle.ll_grammar.specs.Predictable.{IsReady};
ghost use Rattle.ll_grammar.specs.Predictions.{IsRead};
ghost use Rattle.ll_grammar.specs.FirstFault.{IsAnswer, fault_place as fault_place_spec};

use crate::grammar::{Grammar, Prediction, Symbol, TokenClass};
use pc_common::Memory;
use std::alloc::Global;

/// A fault of a list of tokens, at a token's place from 0.
#[derive(Clone, Copy, PartialEq, Eq)]
pub enum Fault {
    /// Some text begins with the tokens before this place, and none with those through it.
    /// The end of the tokens counts as one more token: there the place is their number.
    Syntax(usize),
    /// Some text begins with the tokens through this place, and the last of them stands too deep.
    Depth(usize),
}

/// The first fault of the tokens as a text of the part `start`, or `None` where they are such a text
/// with no token too deep. `Err` is for want of memory alone.
///
/// Each token is looked at once. No call nests: what is still to be read waits on a stack, which
/// holds at most the symbols of the bodies that the tokens have begun.
pub fn first_fault<C: TokenClass, N: Grammar<C>>(
    alloc: Global,
    start: N,
    classes: &[C],
) -> Result<Option<Fault>, Memory>
    ensures { IfOk result (IsAnswer (Derives N.rules start) classes.now) }
{
    let mut stack = Vec::new(alloc);
    stack.push(Symbol::Nonterminal(start))?;
    for (at, class) in classes.iter().enumerate() {
        match read(&mut stack, *class)? {
            Prediction::Pushed => {}
            Prediction::Absent => return Ok(Some(Fault::Syntax(at))),
            Prediction::Deep => return Ok(Some(Fault::Depth(at))),
        }
    }
    Ok(if is_over(&stack) {
        None
    } else {
        Some(Fault::Syntax(classes.len()))
    })
}

/// The place that a fault names.
pub fn fault_place(fault: Option<Fault>) -> Option<usize>
    ensures { result ≡ fault_place_spec fault }
{
    match fault? {
        Fault::Syntax(k) | Fault::Depth(k) => Some(k),
    }
}

// The token against the top of the stack. A part that does not begin with it, but may end, is done
// and leaves it to the symbol below. A part that begins with it is not ended, though it may be able
// to: by the LL(1) condition no text goes on after such an end with this token.
fn read<C: TokenClass, N: Grammar<C>>(
    stack: &mut Vec<Symbol<C, N>>,
    class: C,
) -> Result<Prediction, Memory>
    requires { IsReady N.rules N.follow (reverse stack.old.items) }
    ensures { IfOk result (λ prediction.
        IsRead N.rules N.follow (reverse stack.old.items) class prediction (reverse stack.new.items)) }
{
    while let Some(symbol) = stack.pop() {
        match symbol {
            Symbol::Terminal(expected) => {
                return Ok(if expected.is_same(class) {
                    Prediction::Pushed
                } else {
                    Prediction::Absent
                });
            }
            Symbol::Nonterminal(part) => match part.push(class, stack)? {
                Prediction::Absent => {
                    if !part.is_nullable() {
                        return Ok(Prediction::Absent);
                    }
                }
                prediction => return Ok(prediction),
            },
        }
    }
    Ok(Prediction::Absent)
}

// Whether the text may end here: each part that still waits may have no token.
fn is_over<C: TokenClass, N: Grammar<C>>(stack: &[Symbol<C, N>]) -> bool
    ensures { result ≡ list_all (is_nullable_symbol N.rules) stack.now }
{
    stack.iter().all(|symbol| match symbol {
        Symbol::Terminal(_) => false,
        Symbol::Nonterminal(part) => part.is_nullable(),
    })
}
