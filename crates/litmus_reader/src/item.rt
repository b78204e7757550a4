ghost use Rattle.std.specs.Prelude.{◌≡◌};
ghost use Rattle.litmus_reader.specs.Items.{value_of, memop_of};

use pc_case::{Address, Memop, Page, TypeNames};
use pc_common::{Bytes, Place, Value};

/// A number of the text, and where it stands.
#[derive(Clone, Copy)]
pub(crate) struct Numeral {
    pub(crate) value: u64,
    pub(crate) at: Place,
}

/// A value of the text, with the places of its marks.
#[derive(Clone, Copy)]
pub(crate) enum ValueText {
    Number(u64),
    Entry {
        tag: u64,
        accessed: Numeral,
        dirty: Numeral,
    },
}

impl ValueText {
    /// The value without its places.
    pub(crate) fn value(self) -> Value
        ensures { result ≡ value_of self }
    {
        match self {
            ValueText::Number(number) => Value::Number(number),
            ValueText::Entry {
                tag,
                accessed,
                dirty,
            } => Value::Entry {
                tag,
                accessed: accessed.value,
                dirty: dirty.value,
            },
        }
    }
}

/// What a read or a write touches, as its line says.
#[derive(Clone, Copy)]
pub(crate) struct Touch {
    pub(crate) va: Page,
    pub(crate) pa: Address,
    pub(crate) value: ValueText,
}

impl Touch {
    pub(crate) fn memop(self) -> Memop
        ensures { result ≡ memop_of self }
    {
        Memop {
            va: self.va,
            pa: self.pa,
            value: self.value.value(),
        }
    }
}

/// What a `Microop` line says before its brackets.
#[derive(Clone, Copy)]
pub(crate) struct Head {
    /// Where `Microop` stands.
    pub(crate) at: Place,
    pub(crate) g: Numeral,
    pub(crate) core: Numeral,
    pub(crate) thread: Numeral,
    pub(crate) n: u64,
}

/// What a micro-op does, with what it touches.
#[derive(Clone, Copy)]
pub(crate) enum Action {
    Read(Touch),
    Write(Touch),
    Fence,
}

#[derive(Drop)]
pub(crate) struct Microop {
    pub(crate) head: Head,
    pub(crate) types: TypeNames,
    pub(crate) action: Action,
}

/// A micro-op as a `Relationship` line names it.
#[derive(Clone, Copy)]
pub(crate) struct End {
    pub(crate) g: Numeral,
    pub(crate) n: u64,
}

#[derive(Drop)]
pub(crate) struct Relationship {
    pub(crate) kind: Bytes,
    pub(crate) source: End,
    pub(crate) target: End,
}

/// The value that an `Init` or a `Final` line states.
#[derive(Clone, Copy)]
pub(crate) struct ValueLine {
    /// Where the line's word stands.
    pub(crate) at: Place,
    pub(crate) pa: Address,
    pub(crate) value: ValueText,
}

/// A line of a test, with the places that its faults may name.
#[derive(Drop)]
pub(crate) enum Item {
    Microop(Microop),
    Relationship(Relationship),
    Initial(ValueLine),
    Final(ValueLine),
    /// Where the word stands.
    Permitted(Place),
    /// Where the word stands.
    Forbidden(Place),
}
