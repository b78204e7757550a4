ghost use Rattle.std.specs.Prelude.{◌≡◌, IfOk};
ghost use Rattle.litmus_reader.specs.Terminals.{is_name as is_name_spec};
ghost use Rattle.ll_grammar.specs.Predictions.{IsPush};
ghost use Rattle.litmus_reader.specs.Phrases.{rules, follow, rules_predictable, rules_texts};

use self::Phrase::*;
use super::format::Format;
use super::terminal::Terminal::{self, *};
use ll_grammar::{Grammar, Prediction, Symbol, push};
use pc_common::Memory;

/// The parts of a test. What one format has and the other has not is a part of each format.
#[derive(Clone, Copy)]
pub(crate) enum Phrase {
    Test,
    /// Any number of lines.
    Items(Format),
    /// What stands in the brackets of a `Microop` line.
    Access(Format),
    /// Any number of names.
    Types,
    AnyName,
    /// `(VA t x)`.
    VirtualPage,
    /// `(PA t x)` or `(Entry t)`.
    Address(Format),
    /// An address after its bracket.
    AddressInside(Format),
    /// `(Data d)` or `(Maps t a d)`, as a read reads it.
    ReadValue(Format),
    /// `(Data d)` or `(Maps t a d)`, as a write writes it.
    WriteValue(Format),
    /// A value after its bracket.
    ValueInside(Format),
    /// `d` or `(Maps t a d)`, as a line states it.
    StatedValue(Format),
}

/// What waits on the recogniser's stack.
type Waiting = Symbol<Terminal, Phrase>;

/// Whether a token of this class is a name.
fn is_name(terminal: Terminal) -> bool
    ensures { result ≡ is_name_spec terminal }
{
    !matches!(terminal, Number | Text | Open | Close | Dot | Arrow | Other)
}

impl Grammar<Terminal> for Phrase {
    ghost rules = { rules };

    ghost follow = { follow };

    ghost predictable = { rules_predictable };

    ghost has_texts = { rules_texts };

    fn is_nullable(self) -> bool {
        matches!(self, Items(_) | Types)
    }

    fn push(
        self,
        class: Terminal,
        stack: &mut Vec<Symbol<Terminal, Phrase>>,
    ) -> Result<Prediction, Memory> {
        match self {
            Test => push_test(class, stack),
            Items(format) => push_items(format, class, stack),
            Access(format) => push_access(format, class, stack),
            Types => push_types(class, stack),
            AnyName => push_any_name(class, stack),
            VirtualPage => push_virtual_page(class, stack),
            Address(format) => push_address(format, class, stack),
            AddressInside(format) => push_address_inside(format, class, stack),
            ReadValue(format) => push_read_value(format, class, stack),
            WriteValue(format) => push_write_value(format, class, stack),
            ValueInside(format) => push_value_inside(format, class, stack),
            StatedValue(format) => push_stated_value(format, class, stack),
        }
    }
}

fn push_test(class: Terminal, stack: &mut Vec<Waiting>) -> Result<Prediction, Memory>
    ensures { IfOk result (IsPush rules Phrase.Test class stack.old.items stack.new.items) }
{
    match class {
        Litmus => push!(stack; Text Dot [Items(Format::One)]),
        Litmus2 => push!(stack; Text Dot [Items(Format::Two)]),
        _ => Ok(Prediction::Absent),
    }
}

fn push_items(
    format: Format,
    class: Terminal,
    stack: &mut Vec<Waiting>,
) -> Result<Prediction, Memory>
    ensures { IfOk result (IsPush rules (Phrase.Items format) class stack.old.items stack.new.items) }
{
    match class {
        Microop =>
            push!(stack; Number Number Number Number Open [Access(format)] Close Dot [Items(format)]),
        Relationship =>
            push!(stack; [AnyName] Number Number Arrow Number Number Dot [Items(format)]),
        Init | Final => push!(stack; [Address(format)] [StatedValue(format)] Dot [Items(format)]),
        Permitted | Forbidden => push!(stack; Dot [Items(format)]),
        _ => Ok(Prediction::Absent),
    }
}

fn push_access(
    format: Format,
    class: Terminal,
    stack: &mut Vec<Waiting>,
) -> Result<Prediction, Memory>
    ensures { IfOk result (IsPush rules (Phrase.Access format) class stack.old.items stack.new.items) }
{
    match class {
        Read => push!(stack; [Types] [VirtualPage] [Address(format)] [ReadValue(format)]),
        Write => push!(stack; [Types] [VirtualPage] [Address(format)] [WriteValue(format)]),
        Fence => push!(stack; [Types]),
        _ => Ok(Prediction::Absent),
    }
}

fn push_types(class: Terminal, stack: &mut Vec<Waiting>) -> Result<Prediction, Memory>
    ensures { IfOk result (IsPush rules Phrase.Types class stack.old.items stack.new.items) }
{
    match class {
        name if is_name(name) => push!(stack; [Types]),
        _ => Ok(Prediction::Absent),
    }
}

fn push_any_name(class: Terminal, stack: &mut Vec<Waiting>) -> Result<Prediction, Memory>
    ensures { IfOk result (IsPush rules Phrase.AnyName class stack.old.items stack.new.items) }
{
    match class {
        name if is_name(name) => push!(stack;),
        _ => Ok(Prediction::Absent),
    }
}

fn push_virtual_page(class: Terminal, stack: &mut Vec<Waiting>) -> Result<Prediction, Memory>
    ensures { IfOk result (IsPush rules Phrase.VirtualPage class stack.old.items stack.new.items) }
{
    match class {
        Open => push!(stack; Va Number Number Close),
        _ => Ok(Prediction::Absent),
    }
}

fn push_address(
    format: Format,
    class: Terminal,
    stack: &mut Vec<Waiting>,
) -> Result<Prediction, Memory>
    ensures { IfOk result (IsPush rules (Phrase.Address format) class stack.old.items stack.new.items) }
{
    match class {
        Open => push!(stack; [AddressInside(format)]),
        _ => Ok(Prediction::Absent),
    }
}

fn push_address_inside(
    format: Format,
    class: Terminal,
    stack: &mut Vec<Waiting>,
) -> Result<Prediction, Memory>
    ensures { IfOk result (IsPush rules (Phrase.AddressInside format) class stack.old.items stack.new.items) }
{
    match (format, class) {
        (_, Pa) => push!(stack; Number Number Close),
        (Format::Two, Entry) => push!(stack; Number Close),
        _ => Ok(Prediction::Absent),
    }
}

fn push_read_value(
    format: Format,
    class: Terminal,
    stack: &mut Vec<Waiting>,
) -> Result<Prediction, Memory>
    ensures { IfOk result (IsPush rules (Phrase.ReadValue format) class stack.old.items stack.new.items) }
{
    match class {
        Open => push!(stack; [ValueInside(format)]),
        _ => Ok(Prediction::Absent),
    }
}

fn push_write_value(
    format: Format,
    class: Terminal,
    stack: &mut Vec<Waiting>,
) -> Result<Prediction, Memory>
    ensures { IfOk result (IsPush rules (Phrase.WriteValue format) class stack.old.items stack.new.items) }
{
    match class {
        Open => push!(stack; [ValueInside(format)]),
        _ => Ok(Prediction::Absent),
    }
}

fn push_value_inside(
    format: Format,
    class: Terminal,
    stack: &mut Vec<Waiting>,
) -> Result<Prediction, Memory>
    ensures { IfOk result (IsPush rules (Phrase.ValueInside format) class stack.old.items stack.new.items) }
{
    match (format, class) {
        (_, Data) => push!(stack; Number Close),
        (Format::Two, Maps) => push!(stack; Number Number Number Close),
        _ => Ok(Prediction::Absent),
    }
}

fn push_stated_value(
    format: Format,
    class: Terminal,
    stack: &mut Vec<Waiting>,
) -> Result<Prediction, Memory>
    ensures { IfOk result (IsPush rules (Phrase.StatedValue format) class stack.old.items stack.new.items) }
{
    match (format, class) {
        (_, Number) => push!(stack;),
        (Format::Two, Open) => push!(stack; Maps Number Number Number Close),
        _ => Ok(Prediction::Absent),
    }
}
