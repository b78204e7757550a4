ghost use Rattle.std.specs.Prelude.{◌≡◌, IfOk};

use pc_common::{Memory, Place, Shared};

/// A name's bytes.
pub type Name = Shared<u8>;

pub type Names = Shared<Name>;

/// What a quantifier ranges over: micro-ops in test order, or cores from 0 to the greatest in the test.
#[derive(Clone, Copy, PartialEq, Eq)]
pub enum Sort {
    Microop,
    Core,
}

/// A name where the text has it.
#[derive(Clone, Drop)]
pub struct Word {
    pub name: Name,
    pub at: Place,
}

impl Word {
    /// The same word once more. Takes no memory.
    pub fn share(&self) -> Result<Word, Memory>
        ensures { IfOk result (λ word. word ≡ self.now) }
    {
        Ok(Word {
            name: self.name.share()?,
            at: self.at,
        })
    }
}

pub type Words = Shared<Word>;

/// An argument: a variable or a plain name, or a number.
#[derive(Clone, Drop)]
pub enum Arg {
    Word(Word),
    Number(u64, Place),
}

pub type Args = Shared<Arg>;

/// A node as written: a micro-op at a stage, on its own core where no core is given.
#[derive(Clone)]
pub struct NodeTerm {
    pub op: Word,
    pub core: Option<Arg>,
    pub stage: Word,
}

// By hand: docs/DECISIONS.md, "Drops are written by hand".
impl Drop for NodeTerm {
    fn drop(self) {
        let NodeTerm {
            op: _,
            core: _,
            stage: _,
        } = self;
    }
}

pub type NodeTerms = Shared<NodeTerm>;

/// An edge as written: its first node happens before its second.
#[derive(Clone)]
pub struct EdgeTerm {
    pub from: NodeTerm,
    pub to: NodeTerm,
}

// By hand: docs/DECISIONS.md, "Drops are written by hand".
impl Drop for EdgeTerm {
    fn drop(self) {
        let EdgeTerm { from: _, to: _ } = self;
    }
}

pub type EdgeTerms = Shared<EdgeTerm>;
