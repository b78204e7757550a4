ghost use Rattle.std.specs.Prelude.{◌≡◌, None, Some, map, IfOk, IfErr, OnOk};
ghost use Rattle.x86_litmus.specs.Said.{nothing, add};
ghost use Rattle.x86_litmus.specs.Faults.{fault_of};
ghost use Rattle.x86_litmus.specs.Plain.{plain_item, plain_said, plain_fault};
ghost use Rattle.x86_litmus.specs.Takes.{IsListingRefusal};

use super::content_fault::ContentFault;
use super::fault::X86Fault;
use super::faults::{
    When, again_fault, column_fault, instruction_fault, register_fault, row_fault,
};
use super::item::{Instruction, Item};
use super::values::Values;
use pc_common::Memory;
use std::alloc::Global;

/// The value that the condition gives a thread's register.
#[derive(Clone, Copy)]
pub(crate) struct Asked<'a> {
    pub(crate) thread: u64,
    pub(crate) register: &'a [u8],
    pub(crate) value: u64,
}

/// What a listing has said up to some place.
pub(crate) struct Said<'a> {
    pub(crate) initial: Values<'a>,
    pub(crate) columns: u64,
    /// In text order.
    pub(crate) instructions: Vec<Instruction<'a>>,
    pub(crate) final_values: Values<'a>,
    pub(crate) asked: Vec<Asked<'a>>,
    pub(crate) is_denied: bool,
}

// By hand: docs/DECISIONS.md, "Drops are written by hand".
impl Drop for Said<'_> {
    fn drop(self) {
        let Said {
            initial: _,
            columns: _,
            instructions: _,
            final_values: _,
            asked: _,
            is_denied: _,
        } = self;
    }
}

impl<'a> Said<'a> {
    /// Nothing. Takes no memory.
    pub(crate) fn new(alloc: Global) -> Self
        ensures { plain_said result ≡ nothing }
    {
        Said {
            initial: Values::new(alloc),
            columns: 0,
            instructions: Vec::new(alloc),
            final_values: Values::new(alloc),
            asked: Vec::new(alloc),
            is_denied: false,
        }
    }

    /// The fault of an item after what was said.
    fn fault(&self, item: Item<'a>) -> Option<ContentFault>
        ensures { plain_fault result ≡ fault_of (plain_said self.now) (plain_item item.entry) }
    {
        match item {
            Item::Initial(name, value) => again_fault(When::Before, &self.initial, name, value),
            Item::Column(name) => column_fault(self.columns, name),
            Item::Instructed(instruction) => instruction_fault(&self.instructions, instruction),
            Item::RowEnded(cells, at) => row_fault(self.columns, cells, at),
            Item::Denied => None,
            Item::RegisterIs(thread, register, _) => {
                register_fault(&self.instructions, &self.asked, thread, register)
            }
            Item::Final(name, value) => again_fault(When::Behind, &self.final_values, name, value),
        }
    }

    /// Takes one more item, which has no fault.
    fn append(&mut self, item: Item<'a>) -> Result<(), Memory>
        requires { fault_of (plain_said self.old) (plain_item item) ≡ None }
        ensures { OnOk result (plain_said self.new ≡ add (plain_said self.old) (plain_item item.entry)) }
    {
        match item {
            Item::Initial(name, value) => self.initial.add(name.word, value)?,
            Item::Column(_) => self.columns += 1,
            Item::Instructed(instruction) => self.instructions.push(instruction)?,
            Item::RowEnded(_, _) => {}
            Item::Denied => self.is_denied = true,
            Item::RegisterIs(thread, register, value) => self.asked.push(Asked {
                thread: thread.number,
                register: register.word,
                value,
            })?,
            Item::Final(name, value) => self.final_values.add(name.word, value)?,
        }
        Ok(())
    }

    /// Takes one more item, or names its fault. After an `Err` the text is not to be read on.
    pub(crate) fn add(&mut self, item: Item<'a>) -> Result<(), X86Fault>
        ensures ok { OnOk result ((fault_of (plain_said self.old) (plain_item item.entry) ≡ None)
            × (plain_said self.new ≡ add (plain_said self.old) (plain_item item.entry))) }
        ensures err { IfErr result (IsListingRefusal (fault_of (plain_said self.old) (plain_item item.entry))) }
    {
        if let Some(fault) = self.fault(item) {
            return Err(X86Fault::Content(fault.kind, fault.place));
        }
        self.append(item)?;
        Ok(())
    }
}
