ghost use Rattle.std.specs.Prelude.{◌≡◌, IfOk};
ghost use Rattle.x86_litmus.specs.Terminals.{is_name as is_name_spec};
ghost use Rattle.ll_grammar.specs.Predictions.{IsPush};
ghost use Rattle.x86_litmus.specs.Phrases.{rules, follow, rules_predictable, rules_texts};

use self::Phrase::*;
use super::terminal::Terminal::{self, *};
use ll_grammar::{Grammar, Prediction, Symbol, push};
use pc_common::Memory;

/// The parts of a listing. Each goes on to the end of what it begins: the block to its brace, a line to the condition.
#[derive(Clone, Copy)]
pub(crate) enum Phrase {
    Listing,
    /// The block after its brace or after a `;`.
    Values,
    /// Behind a value of the block.
    MoreValues,
    /// A column's name, and what stands after it in the head.
    Columns,
    /// Behind a column's name.
    MoreColumns,
    /// The lines and the condition.
    Rows,
    /// A cell after a `|`, and what stands after it.
    Cells,
    /// Behind an instruction.
    MoreCells,
    /// Behind `MOV`.
    Move,
    /// Behind `exists`.
    Asked,
    /// Equations, at least one.
    Equations,
    /// Behind an equation.
    MoreEquations,
    AnyName,
}

/// What waits on the recogniser's stack.
type Waiting = Symbol<Terminal, Phrase>;

/// Whether a token of this class is a name.
fn is_name(terminal: Terminal) -> bool
    ensures { result ≡ is_name_spec terminal }
{
    matches!(terminal, Mov | Mfence | Exists | Name)
}

impl Grammar<Terminal> for Phrase {
    ghost rules = { rules };

    ghost follow = { follow };

    ghost predictable = { rules_predictable };

    ghost has_texts = { rules_texts };

    fn is_nullable(self) -> bool {
        matches!(self, MoreEquations)
    }

    fn push(
        self,
        class: Terminal,
        stack: &mut Vec<Symbol<Terminal, Phrase>>,
    ) -> Result<Prediction, Memory> {
        match self {
            Listing => push_listing(class, stack),
            Values => push_values(class, stack),
            MoreValues => push_more_values(class, stack),
            Columns => push_columns(class, stack),
            MoreColumns => push_more_columns(class, stack),
            Rows => push_rows(class, stack),
            Cells => push_cells(class, stack),
            MoreCells => push_more_cells(class, stack),
            Move => push_move(class, stack),
            Asked => push_asked(class, stack),
            Equations => push_equations(class, stack),
            MoreEquations => push_more_equations(class, stack),
            AnyName => push_any_name(class, stack),
        }
    }
}

fn push_listing(class: Terminal, stack: &mut Vec<Waiting>) -> Result<Prediction, Memory>
    ensures { IfOk result (IsPush rules Phrase.Listing class stack.old.items stack.new.items) }
{
    match class {
        OpenBrace => push!(stack; [Values] [Columns] [Rows]),
        _ => Ok(Prediction::Absent),
    }
}

fn push_values(class: Terminal, stack: &mut Vec<Waiting>) -> Result<Prediction, Memory>
    ensures { IfOk result (IsPush rules Phrase.Values class stack.old.items stack.new.items) }
{
    match class {
        CloseBrace => push!(stack;),
        OpenBracket => push!(stack; [AnyName] CloseBracket Equals Number [MoreValues]),
        name if is_name(name) => push!(stack; Equals Number [MoreValues]),
        _ => Ok(Prediction::Absent),
    }
}

fn push_more_values(class: Terminal, stack: &mut Vec<Waiting>) -> Result<Prediction, Memory>
    ensures { IfOk result (IsPush rules Phrase.MoreValues class stack.old.items stack.new.items) }
{
    match class {
        CloseBrace => push!(stack;),
        Semicolon => push!(stack; [Values]),
        _ => Ok(Prediction::Absent),
    }
}

fn push_columns(class: Terminal, stack: &mut Vec<Waiting>) -> Result<Prediction, Memory>
    ensures { IfOk result (IsPush rules Phrase.Columns class stack.old.items stack.new.items) }
{
    match class {
        name if is_name(name) => push!(stack; [MoreColumns]),
        _ => Ok(Prediction::Absent),
    }
}

fn push_more_columns(class: Terminal, stack: &mut Vec<Waiting>) -> Result<Prediction, Memory>
    ensures { IfOk result (IsPush rules Phrase.MoreColumns class stack.old.items stack.new.items) }
{
    match class {
        Bar => push!(stack; [Columns]),
        Semicolon => push!(stack;),
        _ => Ok(Prediction::Absent),
    }
}

fn push_rows(class: Terminal, stack: &mut Vec<Waiting>) -> Result<Prediction, Memory>
    ensures { IfOk result (IsPush rules Phrase.Rows class stack.old.items stack.new.items) }
{
    match class {
        Tilde => push!(stack; Exists [Asked]),
        Exists => push!(stack; [Asked]),
        Mov => push!(stack; [Move] [MoreCells]),
        Mfence => push!(stack; [MoreCells]),
        Bar => push!(stack; [Cells]),
        Semicolon => push!(stack; [Rows]),
        _ => Ok(Prediction::Absent),
    }
}

fn push_cells(class: Terminal, stack: &mut Vec<Waiting>) -> Result<Prediction, Memory>
    ensures { IfOk result (IsPush rules Phrase.Cells class stack.old.items stack.new.items) }
{
    match class {
        Mov => push!(stack; [Move] [MoreCells]),
        Mfence => push!(stack; [MoreCells]),
        Bar => push!(stack; [Cells]),
        Semicolon => push!(stack; [Rows]),
        _ => Ok(Prediction::Absent),
    }
}

fn push_more_cells(class: Terminal, stack: &mut Vec<Waiting>) -> Result<Prediction, Memory>
    ensures { IfOk result (IsPush rules Phrase.MoreCells class stack.old.items stack.new.items) }
{
    match class {
        Bar => push!(stack; [Cells]),
        Semicolon => push!(stack; [Rows]),
        _ => Ok(Prediction::Absent),
    }
}

fn push_move(class: Terminal, stack: &mut Vec<Waiting>) -> Result<Prediction, Memory>
    ensures { IfOk result (IsPush rules Phrase.Move class stack.old.items stack.new.items) }
{
    match class {
        OpenBracket => push!(stack; [AnyName] CloseBracket Comma Dollar Number),
        name if is_name(name) => push!(stack; Comma OpenBracket [AnyName] CloseBracket),
        _ => Ok(Prediction::Absent),
    }
}

fn push_asked(class: Terminal, stack: &mut Vec<Waiting>) -> Result<Prediction, Memory>
    ensures { IfOk result (IsPush rules Phrase.Asked class stack.old.items stack.new.items) }
{
    match class {
        Open => push!(stack; [Equations] Close),
        Number => push!(stack; Colon [AnyName] Equals Number [MoreEquations]),
        OpenBracket => push!(stack; [AnyName] CloseBracket Equals Number [MoreEquations]),
        name if is_name(name) => push!(stack; Equals Number [MoreEquations]),
        _ => Ok(Prediction::Absent),
    }
}

fn push_equations(class: Terminal, stack: &mut Vec<Waiting>) -> Result<Prediction, Memory>
    ensures { IfOk result (IsPush rules Phrase.Equations class stack.old.items stack.new.items) }
{
    match class {
        Number => push!(stack; Colon [AnyName] Equals Number [MoreEquations]),
        OpenBracket => push!(stack; [AnyName] CloseBracket Equals Number [MoreEquations]),
        name if is_name(name) => push!(stack; Equals Number [MoreEquations]),
        _ => Ok(Prediction::Absent),
    }
}

fn push_more_equations(class: Terminal, stack: &mut Vec<Waiting>) -> Result<Prediction, Memory>
    ensures { IfOk result (IsPush rules Phrase.MoreEquations class stack.old.items stack.new.items) }
{
    match class {
        And => push!(stack; [Equations]),
        _ => Ok(Prediction::Absent),
    }
}

fn push_any_name(class: Terminal, stack: &mut Vec<Waiting>) -> Result<Prediction, Memory>
    ensures { IfOk result (IsPush rules Phrase.AnyName class stack.old.items stack.new.items) }
{
    match class {
        name if is_name(name) => push!(stack;),
        _ => Ok(Prediction::Absent),
    }
}
