use super::formula::Formula;
use super::term::{Word, Words};
use pc_common::{Listed, Place};

/// A line `StageName`.
pub struct StageItem {
    pub number: u64,
    pub number_at: Place,
    pub name: Word,
}

// By hand: docs/DECISIONS.md, "Drops are written by hand".
impl Drop for StageItem {
    fn drop(self) {
        let StageItem {
            number: _,
            number_at: _,
            name: _,
        } = self;
    }
}

pub type StageItems = Listed<StageItem>;

/// An axiom or a macro, in the text's order.
pub enum Item {
    /// `at` is the place of the word `Axiom`.
    Axiom {
        at: Place,
        body: Formula,
    },
    Macro {
        name: Word,
        parameters: Words,
        body: Formula,
    },
}

// By hand: docs/DECISIONS.md, "Drops are written by hand".
impl Drop for Item {
    fn drop(self) {
        match self {
            Item::Axiom { at: _, body: _ } => {}
            Item::Macro {
                name: _,
                parameters: _,
                body: _,
            } => {}
        }
    }
}

pub type Items = Listed<Item>;

/// A model file as written.
pub struct ModelFile {
    pub stages: StageItems,
    pub items: Items,
}

// By hand: docs/DECISIONS.md, "Drops are written by hand".
impl Drop for ModelFile {
    fn drop(self) {
        let ModelFile {
            stages: _,
            items: _,
        } = self;
    }
}
