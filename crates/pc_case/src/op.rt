ghost use Rattle.std.specs.Prelude.{◌≡◌, IfOk};

use super::address::{Address, Page};
use super::type_names::TypeNames;
use pc_common::{Memory, Value};
use std::alloc::Global;

/// A micro-op's name: the number of its instruction and its number inside it.
#[derive(Clone, Copy, PartialEq, Eq, Hash)]
pub struct OpId {
    pub g: u64,
    pub n: u64,
}

/// What a read or a write touches: its virtual address, its physical address and its value.
#[derive(Clone, Copy, PartialEq, Eq)]
pub struct Memop {
    pub va: Page,
    pub pa: Address,
    pub value: Value,
}

#[derive(Clone, Copy, PartialEq, Eq)]
pub enum Access {
    Read,
    Write,
    Fence,
}

/// A micro-op. `memop` is None exactly for a fence.
pub struct Op {
    pub id: OpId,
    /// From 0 to 63.
    pub core: u8,
    pub thread: u64,
    pub types: TypeNames,
    pub access: Access,
    pub memop: Option<Memop>,
}

// By hand: docs/DECISIONS.md, "Drops are written by hand".
impl Drop for Op {
    fn drop(self) {
        let Op {
            id: _,
            core: _,
            thread: _,
            types: _,
            access: _,
            memop: _,
        } = self;
    }
}

impl Op {
    /// The same micro-op once more. The one error is that memory was refused.
    pub fn copy(&self, alloc: Global) -> Result<Op, Memory>
        ensures { IfOk result (λ c. c ≡ self.now) }
    {
        Ok(Op {
            id: self.id,
            core: self.core,
            thread: self.thread,
            types: self.types.copy(alloc)?,
            access: self.access,
            memop: self.memop,
        })
    }
}
