ghost use Rattle.std.specs.Prelude.{◌≡◌, ◌↔◌, ◌∷◌, [], All, List, map, true, IsTrue, IfOk, OnOk};
ghost use Rattle.pc_common.specs.Case.{Case as PlainCase};
ghost use Rattle.pc_ground.specs.Stages.{plain_axioms};
ghost use Rattle.lifted_facts.specs.PlainFacts.{Branch, root, plain_fact, IsProper};
ghost use Rattle.lifted_facts.specs.Lifted.{derive as derive_step, split as split_step, close as close_step, HasAdvanced};
ghost use Rattle.lifted_facts.specs.Steps.{plain_leaf, plain_step};
ghost use Rattle.lifted_facts.specs.Opens.{opens_at};

use super::fact::Fact;
use super::leaves::closes;
use super::named::{part_at, sides_at};
use super::open_branches::FactBranches;
use super::parts::said_of;
use super::step::{FactLeaf, FactStep};
use super::waiting::Waiting;
use super::way::Way;
use pc_case::Case;
use pc_common::Memory;
use pc_syntax::{Closed, Env};
use std::alloc::Global;

/// The axioms as facts, in their order.
fn axiom_facts<'a>(alloc: Global, axioms: &'a [Closed]) -> Result<Vec<Fact<'a>>, Memory>
    ensures are { IfOk result (λ facts. map plain_fact facts.items ≡ root (plain_axioms axioms.now)) }
    ensures proper { (c : PlainCase) → IfOk result (λ facts. All (IsProper c) facts.items) }
{
    let env = Env::new();
    let mut facts = Vec::new(alloc);
    for axiom in axioms {
        facts.push(said_of(&env, true, &axiom.body))?;
    }
    Ok(facts)
}

impl<'a> FactBranches<'a> {
    /// The one branch of no step, whose facts are the axioms.
    pub fn new(
        alloc: Global,
        case: &'a Case,
        axioms: &'a [Closed],
    ) -> Result<FactBranches<'a>, Memory>
        ensures case { IfOk result (λ branches. branches.case.now ≡ case.now) }
        ensures opens { IfOk result (λ branches. opens_at branches ≡ root (plain_axioms axioms.now) ∷ []) }
    {
        Ok(FactBranches {
            case,
            facts: axiom_facts(alloc, axioms)?,
            later: Vec::new(alloc),
            is_open: true,
        })
    }

    /// Takes a step at the first open branch. False where no branch is open, or where the step's condition does not
    /// hold. After false, or where memory is refused, nothing is said of the branches.
    pub fn take(&mut self, step: FactStep<'_>) -> Result<bool, Memory>
        ensures case { self.new.case.now ≡ self.old.case.now }
        ensures advanced { IfOk result (HasAdvanced self.old.case.now (plain_step step.entry) (opens_at self.old)
            (opens_at self.new)) }
    {
        if !self.is_open {
            return Ok(false);
        }
        match step {
            FactStep::Derive(way, number) => self.derive(way, number),
            FactStep::Split(number) => self.split(number),
            FactStep::Close(leaf) => self.close(leaf),
        }
    }

    /// Whether no branch is open. Takes no memory.
    pub fn is_closed(&self) -> bool
        ensures { IsTrue result ↔ (opens_at self.now ≡ []) }
    {
        !self.is_open
    }

    /// Adds a part of a fact to the open branch.
    fn derive(&mut self, way: Way, number: u64) -> Result<bool, Memory>
        requires { self.old.is_open ≡ true }
        ensures case { self.new.case.now ≡ self.old.case.now }
        ensures advanced { IfOk result (HasAdvanced self.old.case.now (derive_step way number) (opens_at self.old)
            (opens_at self.new)) }
    {
        match part_at(self.case, &self.facts, way, number) {
            Some(part) => {
                self.facts.push(part)?;
                Ok(true)
            }
            None => Ok(false),
        }
    }

    /// Adds the first side of a fact to the open branch, and lets the branch with the second one wait.
    fn split(&mut self, number: u64) -> Result<bool, Memory>
        requires { self.old.is_open ≡ true }
        ensures case { self.new.case.now ≡ self.old.case.now }
        ensures advanced { IfOk result (HasAdvanced self.old.case.now (split_step number) (opens_at self.old)
            (opens_at self.new)) }
    {
        match sides_at(self.case, &self.facts, number) {
            Some((first, second)) => {
                self.later.push(Waiting {
                    count: self.facts.len(),
                    fact: second,
                })?;
                self.facts.push(first)?;
                Ok(true)
            }
            None => Ok(false),
        }
    }

    /// Closes the open branch by a leaf, so that the next one that waits is first.
    fn close(&mut self, leaf: FactLeaf<'_>) -> Result<bool, Memory>
        requires { self.old.is_open ≡ true }
        ensures case { self.new.case.now ≡ self.old.case.now }
        ensures advanced { IfOk result (HasAdvanced self.old.case.now (close_step (plain_leaf leaf.entry))
            (opens_at self.old) (opens_at self.new)) }
    {
        if !closes(self.case, &self.facts, leaf) {
            return Ok(false);
        }
        self.open_next()?;
        Ok(true)
    }

    /// Leaves the first branch, and enters the next one that waits.
    fn open_next(&mut self) -> Result<(), Memory>
        ensures case { self.new.case.now ≡ self.old.case.now }
        ensures opens { OnOk result ((b : Branch) (rest : List Branch) → opens_at self.old ≡ b ∷ rest
            → opens_at self.new ≡ rest) }
    {
        match self.later.pop() {
            None => {
                self.is_open = false;
                Ok(())
            }
            Some(next) => {
                let Waiting { count, fact } = next;
                self.facts.truncate(count);
                self.facts.push(fact)?;
                Ok(())
            }
        }
    }
}
