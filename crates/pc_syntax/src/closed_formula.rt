ghost use Rattle.std.specs.Prelude.{◌≡◌, IfOk};
ghost use Rattle.pc_syntax.specs.Closed.{plain_closed, closed_not, closed_and, closed_or, closed_implies, closed_forall, closed_exists, closed_bind};

use super::boxed::boxes;
use super::closed_term::{ClosedArgs, ClosedEdges, ClosedNodes, copy_items};
use super::pred::Pred;
use super::term::Sort;
use pc_common::Memory;
use std::alloc::Global;

/// A formula with slots in place of names, and stages by their numbers.
///
/// Its drop nests a call for each connective, quantifier and binding above an atom, which in a model
/// without faults are at most 512.
pub enum ClosedFormula {
    Not(Box<ClosedFormula>),
    And(Box<ClosedFormula>, Box<ClosedFormula>),
    Or(Box<ClosedFormula>, Box<ClosedFormula>),
    Implies(Box<ClosedFormula>, Box<ClosedFormula>),
    /// Its variable takes the next slot.
    Forall {
        sort: Sort,
        body: Box<ClosedFormula>,
    },
    /// Its variable takes the next slot.
    Exists {
        sort: Sort,
        body: Box<ClosedFormula>,
    },
    Static {
        pred: Pred,
        args: ClosedArgs,
    },
    Nodes(ClosedNodes),
    Edges(ClosedEdges),
    /// The values of the arguments take the next slots, in their order.
    Bind {
        args: ClosedArgs,
        body: Box<ClosedFormula>,
    },
}

// By hand: docs/DECISIONS.md, "Drops are written by hand".
impl Drop for ClosedFormula {
    fn drop(self) {
        match self {
            ClosedFormula::Not(_) => {}
            ClosedFormula::And(_, _) => {}
            ClosedFormula::Or(_, _) => {}
            ClosedFormula::Implies(_, _) => {}
            ClosedFormula::Forall { sort: _, body: _ } => {}
            ClosedFormula::Exists { sort: _, body: _ } => {}
            ClosedFormula::Static { pred: _, args: _ } => {}
            ClosedFormula::Nodes(_) => {}
            ClosedFormula::Edges(_) => {}
            ClosedFormula::Bind { args: _, body: _ } => {}
        }
    }
}

/// The variants that hold a formula. Where memory is refused, what was handed over is gone.
impl ClosedFormula {
    /// `~ body`.
    pub fn negation(alloc: Global, body: ClosedFormula) -> Result<ClosedFormula, Memory>
        ensures { IfOk result (λ f. plain_closed f ≡ closed_not (plain_closed body)) }
    {
        Ok(ClosedFormula::Not(Box::new(alloc, body)?))
    }

    /// `left /\ right`.
    pub fn conjunction(
        alloc: Global,
        left: ClosedFormula,
        right: ClosedFormula,
    ) -> Result<ClosedFormula, Memory>
        ensures { IfOk result (λ f. plain_closed f ≡ closed_and (plain_closed left) (plain_closed right)) }
    {
        let (left, right) = boxes(alloc, left, right)?;
        Ok(ClosedFormula::And(left, right))
    }

    /// `left \/ right`.
    pub fn disjunction(
        alloc: Global,
        left: ClosedFormula,
        right: ClosedFormula,
    ) -> Result<ClosedFormula, Memory>
        ensures { IfOk result (λ f. plain_closed f ≡ closed_or (plain_closed left) (plain_closed right)) }
    {
        let (left, right) = boxes(alloc, left, right)?;
        Ok(ClosedFormula::Or(left, right))
    }

    /// `left => right`.
    pub fn implication(
        alloc: Global,
        left: ClosedFormula,
        right: ClosedFormula,
    ) -> Result<ClosedFormula, Memory>
        ensures { IfOk result (λ f. plain_closed f ≡ closed_implies (plain_closed left) (plain_closed right)) }
    {
        let (left, right) = boxes(alloc, left, right)?;
        Ok(ClosedFormula::Implies(left, right))
    }

    /// `forall`, whose variable takes the next slot in `body`.
    pub fn forall(alloc: Global, sort: Sort, body: ClosedFormula) -> Result<ClosedFormula, Memory>
        ensures { IfOk result (λ f. plain_closed f ≡ closed_forall sort (plain_closed body)) }
    {
        let body = Box::new(alloc, body)?;
        Ok(ClosedFormula::Forall { sort, body })
    }

    /// `exists`, whose variable takes the next slot in `body`.
    pub fn exists(alloc: Global, sort: Sort, body: ClosedFormula) -> Result<ClosedFormula, Memory>
        ensures { IfOk result (λ f. plain_closed f ≡ closed_exists sort (plain_closed body)) }
    {
        let body = Box::new(alloc, body)?;
        Ok(ClosedFormula::Exists { sort, body })
    }

    /// A binding, whose arguments' values take the next slots in `body`, in their order.
    pub fn bind(
        alloc: Global,
        args: ClosedArgs,
        body: ClosedFormula,
    ) -> Result<ClosedFormula, Memory>
        ensures { IfOk result (λ f. plain_closed f ≡ closed_bind args (plain_closed body)) }
    {
        let body = Box::new(alloc, body)?;
        Ok(ClosedFormula::Bind { args, body })
    }

    /// The same formula once more, in memory of its own but for the bytes of names. It nests at most two
    /// calls for each level, where the drop nests one.
    #[cycle(copy)]
    pub fn copy(&self, alloc: Global) -> Result<ClosedFormula, Memory>
        ensures { IfOk result (λ f. plain_closed f ≡ plain_closed self.now) }
    {
        match self {
            ClosedFormula::Not(body) => ClosedFormula::negation(alloc, body.copy(alloc)?),
            ClosedFormula::And(left, right) => {
                let both = copy_both(alloc, left, right)?;
                Ok(ClosedFormula::And(both.0, both.1))
            }
            ClosedFormula::Or(left, right) => {
                let both = copy_both(alloc, left, right)?;
                Ok(ClosedFormula::Or(both.0, both.1))
            }
            ClosedFormula::Implies(left, right) => {
                let both = copy_both(alloc, left, right)?;
                Ok(ClosedFormula::Implies(both.0, both.1))
            }
            ClosedFormula::Forall { sort, body } => {
                ClosedFormula::forall(alloc, *sort, body.copy(alloc)?)
            }
            ClosedFormula::Exists { sort, body } => {
                ClosedFormula::exists(alloc, *sort, body.copy(alloc)?)
            }
            ClosedFormula::Static { pred, args } => Ok(ClosedFormula::Static {
                pred: *pred,
                args: copy_items(alloc, args)?,
            }),
            ClosedFormula::Nodes(nodes) => Ok(ClosedFormula::Nodes(copy_items(alloc, nodes)?)),
            ClosedFormula::Edges(edges) => Ok(ClosedFormula::Edges(copy_items(alloc, edges)?)),
            ClosedFormula::Bind { args, body } => copy_bound(alloc, args, body),
        }
    }
}

/// A copy of each of two formulas, in a box of its own.
#[cycle(copy)]
fn copy_both(
    alloc: Global,
    left: &ClosedFormula,
    right: &ClosedFormula,
) -> Result<(Box<ClosedFormula>, Box<ClosedFormula>), Memory>
    ensures left { IfOk result (λ both. plain_closed both.0.value ≡ plain_closed left.now) }
    ensures right { IfOk result (λ both. plain_closed both.1.value ≡ plain_closed right.now) }
{
    let left = left.copy(alloc)?;
    boxes(alloc, left, right.copy(alloc)?)
}

/// A binding of the same arguments over a copy of its body.
#[cycle(copy)]
fn copy_bound(
    alloc: Global,
    args: &ClosedArgs,
    body: &ClosedFormula,
) -> Result<ClosedFormula, Memory>
    ensures { IfOk result (λ f. plain_closed f ≡ closed_bind args.now (plain_closed body.now)) }
{
    let args = copy_items(alloc, args)?;
    let body = body.copy(alloc)?;
    ClosedFormula::bind(alloc, args, body)
}
