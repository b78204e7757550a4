ghost use Rattle.std.specs.Prelude.{◌≡◌, IfOk};
ghost use Rattle.pc_syntax.specs.Written.{written, not_, and_, or_, implies_, forall_, exists_, static_, expand_, bind_};

use super::boxed::boxes;
use super::term::{Args, EdgeTerms, Name, Names, NodeTerms, Sort, Word};
use pc_common::{Memory, Place};
use std::alloc::Global;

/// A formula as written. A single `AddEdge`, `EdgeExists` or `NodeExists` is a list of one.
///
/// Its drop nests a call for each connective, quantifier and binding above an atom. As written these
/// are at most 128 (the openers that the parser lets through), expanded at most 512.
pub enum Formula {
    Not(Box<Formula>),
    And(Box<Formula>, Box<Formula>),
    Or(Box<Formula>, Box<Formula>),
    Implies(Box<Formula>, Box<Formula>),
    /// `at` is the place of the quantifier's first word.
    Forall {
        at: Place,
        sort: Sort,
        name: Name,
        body: Box<Formula>,
    },
    Exists {
        at: Place,
        sort: Sort,
        name: Name,
        body: Box<Formula>,
    },
    Static {
        pred: Word,
        args: Args,
    },
    Nodes(NodeTerms),
    Edges(EdgeTerms),
    /// `at` is the place of the word `ExpandMacro`.
    Expand {
        at: Place,
        name: Word,
        args: Args,
    },
    /// What expansion makes of an `Expand`: the names bound at once to the arguments' values.
    Bind {
        at: Place,
        names: Names,
        args: Args,
        body: Box<Formula>,
    },
}

// By hand: docs/DECISIONS.md, "Drops are written by hand".
impl Drop for Formula {
    fn drop(self) {
        match self {
            Formula::Not(_) => {}
            Formula::And(_, _) => {}
            Formula::Or(_, _) => {}
            Formula::Implies(_, _) => {}
            Formula::Forall {
                at: _,
                sort: _,
                name: _,
                body: _,
            } => {}
            Formula::Exists {
                at: _,
                sort: _,
                name: _,
                body: _,
            } => {}
            Formula::Static { pred: _, args: _ } => {}
            Formula::Nodes(_) => {}
            Formula::Edges(_) => {}
            Formula::Expand {
                at: _,
                name: _,
                args: _,
            } => {}
            Formula::Bind {
                at: _,
                names: _,
                args: _,
                body: _,
            } => {}
        }
    }
}

/// The variants that hold a formula. Where memory is refused, what was handed over is gone.
impl Formula {
    /// `~ body`.
    pub fn negation(alloc: Global, body: Formula) -> Result<Formula, Memory>
        ensures { IfOk result (λ f. written f ≡ not_ (written body)) }
    {
        Ok(Formula::Not(Box::new(alloc, body)?))
    }

    /// `left /\ right`.
    pub fn conjunction(alloc: Global, left: Formula, right: Formula) -> Result<Formula, Memory>
        ensures { IfOk result (λ f. written f ≡ and_ (written left) (written right)) }
    {
        let (left, right) = boxes(alloc, left, right)?;
        Ok(Formula::And(left, right))
    }

    /// `left \/ right`.
    pub fn disjunction(alloc: Global, left: Formula, right: Formula) -> Result<Formula, Memory>
        ensures { IfOk result (λ f. written f ≡ or_ (written left) (written right)) }
    {
        let (left, right) = boxes(alloc, left, right)?;
        Ok(Formula::Or(left, right))
    }

    /// `left => right`.
    pub fn implication(alloc: Global, left: Formula, right: Formula) -> Result<Formula, Memory>
        ensures { IfOk result (λ f. written f ≡ implies_ (written left) (written right)) }
    {
        let (left, right) = boxes(alloc, left, right)?;
        Ok(Formula::Implies(left, right))
    }

    /// `forall sort "name", body`, `at` being the place of `forall`.
    pub fn forall(
        alloc: Global,
        at: Place,
        sort: Sort,
        name: Name,
        body: Formula,
    ) -> Result<Formula, Memory>
        ensures { IfOk result (λ f. written f ≡ forall_ at sort name (written body)) }
    {
        let body = Box::new(alloc, body)?;
        Ok(Formula::Forall {
            at,
            sort,
            name,
            body,
        })
    }

    /// `exists sort "name", body`, `at` being the place of `exists`.
    pub fn exists(
        alloc: Global,
        at: Place,
        sort: Sort,
        name: Name,
        body: Formula,
    ) -> Result<Formula, Memory>
        ensures { IfOk result (λ f. written f ≡ exists_ at sort name (written body)) }
    {
        let body = Box::new(alloc, body)?;
        Ok(Formula::Exists {
            at,
            sort,
            name,
            body,
        })
    }

    /// The names bound at once to the values of the arguments, `at` being the place of the
    /// `ExpandMacro` that this stands for.
    pub fn bind(
        alloc: Global,
        at: Place,
        names: Names,
        args: Args,
        body: Formula,
    ) -> Result<Formula, Memory>
        ensures { IfOk result (λ f. written f ≡ bind_ at names args (written body)) }
    {
        let body = Box::new(alloc, body)?;
        Ok(Formula::Bind {
            at,
            names,
            args,
            body,
        })
    }

    /// The same predicate of the same arguments, which share their names and lists with their source.
    pub fn shared_static(pred: &Word, args: &Args) -> Result<Formula, Memory>
        ensures { IfOk result (λ f. written f ≡ static_ pred.now args.now) }
    {
        let pred = pred.share()?;
        Ok(Formula::Static {
            pred,
            args: args.share()?,
        })
    }

    /// The same macro at the same arguments, which share their names and lists with their source.
    pub fn shared_expand(at: Place, name: &Word, args: &Args) -> Result<Formula, Memory>
        ensures { IfOk result (λ f. written f ≡ expand_ at name.now args.now) }
    {
        let name = name.share()?;
        Ok(Formula::Expand {
            at,
            name,
            args: args.share()?,
        })
    }
}
