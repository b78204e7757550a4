ghost use Rattle.std.specs.Prelude.{◌≡◌, IfOk};

use super::term::Name;
use pc_common::{Listed, Memory};
use std::alloc::Global;

/// What is copied item by item, where memory may be refused.
pub(crate) trait CopyOrRefuse: Drop + Sized {
    /// The same value once more.
    fn copy_or_refuse(&self) -> Result<Self, Memory>
        ensures { IfOk result (λ copy. copy ≡ self.now) };
}

/// The same items in a list of their own.
pub(crate) fn copy_items<T: CopyOrRefuse>(
    alloc: Global,
    items: &Listed<T>,
) -> Result<Listed<T>, Memory>
    ensures { IfOk result (λ copies. copies ≡ items.now) }
{
    let mut copies = Listed::new(alloc);
    for item in items.as_slice() {
        copies.push(item.copy_or_refuse()?)?;
    }
    Ok(copies)
}

/// An argument with its names resolved.
#[derive(Drop)]
pub enum ClosedArg {
    /// A variable: its binding's place in the scope, counted from the outermost, from 0.
    Slot(u8),
    /// A core number.
    Core(u8),
    /// A name that isn't looked up.
    Plain(Name),
}

pub type ClosedArgs = Listed<ClosedArg>;

impl ClosedArg {
    /// The same argument once more. Takes no memory.
    pub fn copy(&self) -> Result<ClosedArg, Memory>
        ensures { IfOk result (λ copy. copy ≡ self.now) }
    {
        match self {
            ClosedArg::Slot(slot) => Ok(ClosedArg::Slot(*slot)),
            ClosedArg::Core(core) => Ok(ClosedArg::Core(*core)),
            ClosedArg::Plain(name) => Ok(ClosedArg::Plain(name.share()?)),
        }
    }
}

impl CopyOrRefuse for ClosedArg {
    fn copy_or_refuse(&self) -> Result<Self, Memory> {
        self.copy()
    }
}

/// A node with its names resolved: a micro-op's slot, on its own core where no core is given, and
/// the stage's number.
pub struct ClosedNode {
    pub op: u8,
    pub core: Option<ClosedArg>,
    pub stage: u8,
}

// By hand: docs/DECISIONS.md, "Drops are written by hand".
impl Drop for ClosedNode {
    fn drop(self) {
        let ClosedNode {
            op: _,
            core: _,
            stage: _,
        } = self;
    }
}

pub type ClosedNodes = Listed<ClosedNode>;

impl ClosedNode {
    /// The same node once more. Takes no memory.
    pub fn copy(&self) -> Result<ClosedNode, Memory>
        ensures { IfOk result (λ copy. copy ≡ self.now) }
    {
        let core = match &self.core {
            None => None,
            Some(core) => Some(core.copy()?),
        };
        Ok(ClosedNode {
            op: self.op,
            core,
            stage: self.stage,
        })
    }
}

impl CopyOrRefuse for ClosedNode {
    fn copy_or_refuse(&self) -> Result<Self, Memory> {
        self.copy()
    }
}

/// An edge with its names resolved: its first node happens before its second.
pub struct ClosedEdge {
    pub from: ClosedNode,
    pub to: ClosedNode,
}

// By hand: docs/DECISIONS.md, "Drops are written by hand".
impl Drop for ClosedEdge {
    fn drop(self) {
        let ClosedEdge { from: _, to: _ } = self;
    }
}

pub type ClosedEdges = Listed<ClosedEdge>;

impl ClosedEdge {
    /// The same edge once more. Takes no memory.
    pub fn copy(&self) -> Result<ClosedEdge, Memory>
        ensures { IfOk result (λ copy. copy ≡ self.now) }
    {
        let from = self.from.copy()?;
        Ok(ClosedEdge {
            from,
            to: self.to.copy()?,
        })
    }
}

impl CopyOrRefuse for ClosedEdge {
    fn copy_or_refuse(&self) -> Result<Self, Memory> {
        self.copy()
    }
}
