ghost use Rattle.std.specs.Prelude.{◌≡◌, IfOk, MatchOption, Some, None};
ghost use Rattle.pc_syntax.specs.Written.{written};
ghost use Rattle.uspec_parser.specs.declared.operands.Connective.TheVariants.{And as conjoins, Or as disjoins, Implies as implies};
ghost use Rattle.uspec_parser.specs.Operands.{only, or_now, implies_now, before as before_spec, whole as whole_spec, formula_of as formula_spec};
ghost use Rattle.uspec_parser.specs.Grouping.{operands_before, written_option, written_grouping};
ghost use Rattle.uspec_parser.specs.Descent.{connective as connective_spec};

use super::terminal::Terminal;
use pc_common::Memory;
use pc_syntax::Formula;
use std::alloc::Global;

/// What stands between two operands.
#[derive(Clone, Copy)]
pub(crate) enum Connective {
    And,
    Or,
    Implies,
}

/// The connective that a terminal is.
pub(crate) fn connective_of(terminal: Terminal) -> Option<Connective>
    ensures { MatchOption result (connective_spec terminal ≡ None) (λ op. connective_spec terminal ≡ Some op) }
{
    match terminal {
        Terminal::And => Some(Connective::And),
        Terminal::Or => Some(Connective::Or),
        Terminal::Implies => Some(Connective::Implies),
        _ => None,
    }
}

/// An operand with the connective after it.
#[derive(Drop)]
pub(crate) struct Link {
    pub(crate) operand: Formula,
    pub(crate) connective: Connective,
}

/// The end of a list of operands, grouped as far as what stands before it leaves open.
#[derive(Drop)]
struct Grouping {
    /// The conjunction with which it begins.
    now: Formula,
    /// What stands after the `\/` that follows.
    disjoined: Option<Formula>,
    /// What stands after the first `=>`.
    implied: Option<Formula>,
}

impl Grouping {
    fn formula(self, alloc: Global) -> Result<Formula, Memory>
        ensures { IfOk result (λ f. written f ≡ whole_spec (written_grouping self)) }
    {
        let disjunction = disjunction(alloc, self.now, self.disjoined)?;
        implication(alloc, disjunction, self.implied)
    }

    /// The same after an operand and a `/\`.
    fn prepend_and(self, alloc: Global, operand: Formula) -> Result<Grouping, Memory>
        ensures { IfOk result (λ g. written_grouping g
            ≡ before_spec (written operand) conjoins (written_grouping self)) }
    {
        Ok(Grouping {
            now: Formula::conjunction(alloc, operand, self.now)?,
            disjoined: self.disjoined,
            implied: self.implied,
        })
    }

    /// The same after an operand and a `\/`.
    fn prepend_or(self, alloc: Global, operand: Formula) -> Result<Grouping, Memory>
        ensures { IfOk result (λ g. written_grouping g
            ≡ before_spec (written operand) disjoins (written_grouping self)) }
    {
        Ok(Grouping {
            now: operand,
            disjoined: Some(disjunction(alloc, self.now, self.disjoined)?),
            implied: self.implied,
        })
    }

    /// The same after an operand and a `=>`.
    fn prepend_implies(self, alloc: Global, operand: Formula) -> Result<Grouping, Memory>
        ensures { IfOk result (λ g. written_grouping g
            ≡ before_spec (written operand) implies (written_grouping self)) }
    {
        Ok(Grouping {
            now: operand,
            disjoined: None,
            implied: Some(self.formula(alloc)?),
        })
    }

    /// The same after an operand and its connective.
    fn prepend(self, alloc: Global, link: Link) -> Result<Grouping, Memory>
        ensures { IfOk result (λ g. written_grouping g
            ≡ before_spec (written link.operand) link.connective (written_grouping self)) }
    {
        match link.connective {
            Connective::And => self.prepend_and(alloc, link.operand),
            Connective::Or => self.prepend_or(alloc, link.operand),
            Connective::Implies => self.prepend_implies(alloc, link.operand),
        }
    }
}

/// A conjunction with what stands after its `\/`, if it has one.
fn disjunction(alloc: Global, now: Formula, disjoined: Option<Formula>) -> Result<Formula, Memory>
    ensures { IfOk result (λ f. written f ≡ or_now (written now) (written_option disjoined)) }
{
    match disjoined {
        Some(rest) => Formula::disjunction(alloc, now, rest),
        None => Ok(now),
    }
}

/// A disjunction with what stands after its `=>`, if it has one.
fn implication(alloc: Global, now: Formula, implied: Option<Formula>) -> Result<Formula, Memory>
    ensures { IfOk result (λ f. written f ≡ implies_now (written now) (written_option implied)) }
{
    match implied {
        Some(rest) => Formula::implication(alloc, now, rest),
        None => Ok(now),
    }
}

/// The formula of a list of operands, from its last one on. Takes time linear in their number.
pub(crate) fn formula_of(
    alloc: Global,
    operands: Vec<Link>,
    last: Formula,
) -> Result<Formula, Memory>
    ensures { let all = operands_before operands.items (only (written last)) in
        IfOk result (λ f. written f ≡ formula_spec all) }
{
    let mut before = operands;
    let mut grouping = Grouping {
        now: last,
        disjoined: None,
        implied: None,
    };
    while let Some(link) = before.pop() {
        grouping = grouping.prepend(alloc, link)?;
    }
    grouping.formula(alloc)
}
