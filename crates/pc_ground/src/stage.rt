ghost use Rattle.std.specs.Prelude.{◌≡◌, IfOk};

use pc_common::{Listed, Memory};
use pc_syntax::{Closed, Name};
use std::alloc::Global;

/// A stage of a model.
pub struct Stage {
    /// 0 to 63.
    pub number: u8,
    pub name: Name,
}

// By hand: docs/DECISIONS.md, "Drops are written by hand".
impl Drop for Stage {
    fn drop(self) {
        let Stage { number: _, name: _ } = self;
    }
}

impl Stage {
    /// The same stage once more, with its name shared. Takes no memory.
    pub fn copy(&self) -> Result<Stage, Memory>
        ensures { IfOk result (λ stage. stage ≡ self.now) }
    {
        Ok(Stage {
            number: self.number,
            name: self.name.share()?,
        })
    }
}

pub type Stages = Listed<Stage>;

pub type Axioms = Listed<Closed>;

/// The same stages once more, with their names shared.
pub fn copy_stages(alloc: Global, stages: &Stages) -> Result<Stages, Memory>
    ensures { IfOk result (λ copies. copies ≡ stages.now) }
{
    let mut copies = Listed::new(alloc);
    for stage in stages.as_slice() {
        copies.push(stage.copy()?)?;
    }
    Ok(copies)
}
