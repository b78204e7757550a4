ghost use Rattle.std.specs.Prelude.{◌≡◌, [], IfOk};
ghost use Rattle.pc_syntax.specs.Closed.{plain_closed};
ghost use Rattle.pc_syntax.specs.IsClosed.{IsClosed};
ghost use Rattle.pc_syntax.specs.LawsOfFormulas.{IsClosed-prop};

use super::closed_formula::ClosedFormula;
use pc_common::Memory;
use std::alloc::Global;

/// A closed axiom. Each slot is bound with the sort asked for, the arguments of each predicate fit
/// it, a plain name stands only where a predicate asks for one, at most 32 variables are in scope
/// at any place, and stage and core numbers are below 64.
pub struct Closed {
    pub body: ClosedFormula,
    pub ghost closed: { IsClosed [] (plain_closed body) } by { IsClosed-prop [] (plain_closed body) },
}

// By hand: docs/DECISIONS.md, "Drops are written by hand".
impl Drop for Closed {
    fn drop(self) {
        let Closed { body: _ } = self;
    }
}

impl Closed {
    /// The same axiom once more, in memory of its own but for the bytes of names.
    pub fn copy(&self, alloc: Global) -> Result<Closed, Memory>
        ensures { IfOk result (λ c. plain_closed c.body ≡ plain_closed self.now.body) }
    {
        Ok(Closed {
            body: self.body.copy(alloc)?,
        })
    }
}
