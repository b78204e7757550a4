ghost use Rattle.std.specs.Prelude.{◌≡◌, IfOk};
ghost use Rattle.pc_syntax.specs.Written.{written};
ghost use Rattle.macro_expand.specs.Connectives.{joined_by};

use pc_common::Memory;
use pc_syntax::Formula;
use std::alloc::Global;

/// What joins two formulas.
#[derive(Clone, Copy)]
pub(crate) enum Connective {
    And,
    Or,
    Implies,
}

impl Connective {
    /// Two formulas, joined. Where memory is refused, both are gone.
    pub(crate) fn join(
        self,
        alloc: Global,
        left: Formula,
        right: Formula,
    ) -> Result<Formula, Memory>
        ensures { IfOk result (λ f. written f ≡ joined_by self (written left) (written right)) }
    {
        match self {
            Connective::And => Formula::conjunction(alloc, left, right),
            Connective::Or => Formula::disjunction(alloc, left, right),
            Connective::Implies => Formula::implication(alloc, left, right),
        }
    }
}
