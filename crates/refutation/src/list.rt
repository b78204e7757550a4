ghost use Rattle.std.specs.Prelude.{◌≡◌, ◌<◌, ◌+◌, ◌^◌, ◌++◌, [], ◌∷◌, List, length, map, slice_get, Bool, Some, is_ok, IfOk, OnOk, if◌then◌else◌};
ghost use Rattle.std.specs.Vec.Iter.{into_iter_items, into_iter_len};
ghost use Rattle.pc_common.specs.World.{Node as PlainNode};
ghost use Rattle.pc_common.specs.Steps.{Step as PlainStep, split, close};
ghost use Rattle.refutation.specs.Kept.{kept};
ghost use Rattle.refutation.specs.Steps.{plain_step, plain_leaf, plain_kind, IsLeaf, HasLine, open_branches};

use super::cut::Cut;
use super::kind::{Kind, Leaf};
use super::step::{Nodes, Step};
use pc_common::{Listed, Memory};
use pc_ground::NodeKey;
use std::alloc::Global;
use std::marker::Model;
use std::vec::IntoIter;

/// The steps of a refutation so far, in prefix order. At the start one branch is open.
pub struct Refutation {
    steps: Listed<Step>,
    /// Which steps are not needed, the outer cuts after those within them. No clause speaks of it.
    cuts: Vec<Cut>,
}

// By hand: docs/DECISIONS.md, "Drops are written by hand".
impl Drop for Refutation {
    fn drop(self) {
        let Refutation { steps: _, cuts: _ } = self;
    }
}

impl Model for Refutation {
    ghost Value = { List (PlainStep PlainNode) };

    ghost view = { λ s. map plain_step s.steps };
}

/// A list of these nodes.
fn list_of(alloc: Global, nodes: &[NodeKey]) -> Result<Nodes, Memory>
    ensures { IfOk result (λ list. list ≡ nodes.now) }
{
    let mut list = Nodes::new(alloc);
    for node in nodes {
        list.push(*node)?;
    }
    Ok(list)
}

/// The step that is a copy of a leaf.
fn step_of(alloc: Global, leaf: Leaf<'_>) -> Result<Step, Memory>
    ensures { IfOk result (λ step. plain_step step ≡ close (plain_leaf leaf.entry)) }
{
    match leaf {
        Leaf::Cycle(nodes) => Ok(Step::Cycle(list_of(alloc, nodes)?)),
        Leaf::Path(nodes) => Ok(Step::Path(list_of(alloc, nodes)?)),
        Leaf::Absent(node) => Ok(Step::Absent(node)),
        Leaf::False => Ok(Step::False),
    }
}

impl Refutation {
    /// No step, and one open branch. Takes no memory.
    pub fn new(alloc: Global) -> Refutation
        ensures { result ≡ [] }
    {
        Refutation {
            steps: Listed::new(alloc),
            cuts: Vec::new(alloc),
        }
    }

    /// Splits the first open branch at the asserted Or at `position` of the tree, or, where `negated`, of its
    /// negation: one branch more is open. Where memory is refused, nothing changes.
    pub fn push_split(&mut self, negated: bool, position: u64) -> Result<(), Memory>
        requires { 0 < open_branches self.old }
        ensures { self.new ≡ (if is_ok result then self.old ++ split negated position ∷ [] else self.old) }
    {
        self.steps.push(Step::Split { negated, position })
    }

    /// Closes the first open branch by a leaf. Where memory is refused, nothing changes.
    pub fn close_leaf(&mut self, leaf: Step) -> Result<(), Memory>
        requires open { 0 < open_branches self.old }
        requires leaf { IsLeaf (plain_step leaf) }
        ensures { self.new ≡ (if is_ok result then self.old ++ plain_step leaf ∷ [] else self.old) }
    {
        self.steps.push(leaf)
    }

    /// Puts a copy of a step last. Where memory is refused, nothing changes.
    pub fn push(&mut self, alloc: Global, step: Kind<'_>) -> Result<(), Memory>
        requires open { 0 < open_branches self.old }
        requires line { HasLine (plain_kind step) }
        ensures { self.new ≡ (if is_ok result then self.old ++ plain_kind step.entry ∷ [] else self.old) }
    {
        match step {
            Kind::Split { negated, position } => self.push_split(negated, position),
            Kind::Close(leaf) => self.close_leaf(step_of(alloc, leaf)?),
        }
    }

    /// How many steps there are. Takes no memory.
    pub fn len(&self) -> usize
        ensures count { result ≡ length self.now }
        ensures bound { length self.now < 2 ^ 63 }
    {
        self.steps.len()
    }

    /// The step at `k`, from 0. Takes no memory.
    pub fn step(&self, k: usize) -> &Step
        requires { k < length self.now }
        ensures { slice_get self.now k ≡ Some (plain_step result.now) }
    {
        self.steps.get(k)
    }

    /// Notes which steps are not needed, the outer cuts after those within them. It is a hint, and the steps stay.
    pub fn note_cuts(&mut self, cuts: Vec<Cut>)
        ensures { self.new ≡ self.old }
    {
        self.cuts = cuts;
    }

    /// Which steps were noted as not needed. Takes no memory.
    pub fn cuts(&self) -> &[Cut] {
        self.cuts.as_slice()
    }

    /// The steps whose flag is set.
    pub fn keep(self, alloc: Global, stays: &[bool]) -> Result<Refutation, Memory>
        ensures { IfOk result (λ short. short ≡ kept stays.now self) }
    {
        let Refutation { steps, cuts: _ } = self;
        let mut rest = steps.into_vec().into_iter();
        let mut short = Refutation::new(alloc);
        for flag in stays {
            short.keep_next(&mut rest, *flag)?;
        }
        Ok(short)
    }

    /// Puts the next step last where it stays.
    fn keep_next(&mut self, rest: &mut IntoIter<Step>, stays: bool) -> Result<(), Memory>
        requires { into_iter_len rest.old ≡ length (into_iter_items rest.old) }
        ensures counted { into_iter_len rest.new ≡ length (into_iter_items rest.new) }
        ensures next { OnOk result ((flags : List Bool) →
            self.new ++ kept flags (map plain_step (into_iter_items rest.new))
            ≡ self.old ++ kept (stays ∷ flags) (map plain_step (into_iter_items rest.old))) }
    {
        match rest.next() {
            Some(step) if stays => {
                self.steps.push(step)?;
                Ok(())
            }
            Some(_) => Ok(()),
            None => Ok(()),
        }
    }
}
