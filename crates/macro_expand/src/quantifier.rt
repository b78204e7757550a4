ghost use Rattle.std.specs.Prelude.{◌≡◌, IfOk};
ghost use Rattle.pc_syntax.specs.Written.{written};
ghost use Rattle.macro_expand.specs.Connectives.{bound_by};

use pc_common::{Memory, Place};
use pc_syntax::{Formula, Name, Sort};
use std::alloc::Global;

/// What binds a name in a formula.
#[derive(Clone, Copy)]
pub(crate) enum Quantifier {
    Forall,
    Exists,
}

impl Quantifier {
    /// A formula in which a name is bound, `at` being the place of the quantifier's first word. Where
    /// memory is refused, both are gone.
    pub(crate) fn bind(
        self,
        alloc: Global,
        at: Place,
        sort: Sort,
        name: Name,
        body: Formula,
    ) -> Result<Formula, Memory>
        ensures { IfOk result (λ f. written f ≡ bound_by self at sort name (written body)) }
    {
        match self {
            Quantifier::Forall => Formula::forall(alloc, at, sort, name, body),
            Quantifier::Exists => Formula::exists(alloc, at, sort, name, body),
        }
    }
}
