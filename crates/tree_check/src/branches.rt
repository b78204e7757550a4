ghost use Rattle.std.specs.Prelude.{◌≡◌, ◌↔◌, ◌∷◌, [], List, IsTrue, IfOk, OnOk};
ghost use Rattle.pc_common.specs.World.{Node};
ghost use Rattle.pc_common.specs.Steps.{split as split_step, close as close_step};
ghost use Rattle.pc_ground.specs.Tree.{Tree};
ghost use Rattle.pc_ground.specs.declared.version.Version.{Version as AnyVersion};
ghost use Rattle.pc_ground.specs.declared.version.Version.TheVariants.{One, Two};
ghost use Rattle.pc_ground.specs.Refutes.{Branch};
ghost use Rattle.refutation.specs.Steps.{plain_leaf, plain_kind};
ghost use Rattle.tree_check.specs.OpenBranches.{Stands, StandsAtRoot, HasTakenStep};

use super::children::children;
use super::closing::closes;
use super::entering::enter_side;
use super::facts::Facts;
use super::later::Later;
use super::root::show_size;
use super::side::Side;
use pc_common::Memory;
use pc_ground::{Flat, Version};
use refutation::{Kind, Leaf};
use std::alloc::Global;
use std::marker::Model;

/// The branches that the steps of a refutation so far leave open.
pub struct Branches<'a> {
    version: Version,
    tree: &'a Flat,
    /// What is known on the first branch.
    facts: Facts,
    /// The branches that wait, the next one last.
    later: Vec<Later>,
    is_open: bool,
}

// By hand: docs/DECISIONS.md, "Drops are written by hand".
impl Drop for Branches<'_> {
    fn drop(self) {
        let Branches {
            version: _,
            tree: _,
            facts: _,
            later: _,
            is_open: _,
        } = self;
    }
}

impl<'a> Model for Branches<'a> {
    ghost use Rattle.std.specs.Prelude.{All, length};
    ghost use Rattle.tree_check.specs.Sides.{IsInside};
    ghost use Rattle.tree_check.specs.OpenBranches.{OpenBranches, open_branches};

    ghost Value = { OpenBranches };

    ghost view = { λ s. open_branches s.version s.tree.now s.facts s.later.items s.is_open };

    ghost invariant = { λ s. All (λ l. IsInside (length s.tree.now) l.side) s.later.items };
}

impl<'a> Branches<'a> {
    /// The one branch of no step: what the root of the tree asserts. Steps are read as those of version 1.
    pub fn new(alloc: Global, tree: &'a Flat) -> Result<Branches<'a>, Memory>
        ensures { IfOk result (StandsAtRoot One tree.now) }
    {
        show_size(tree);
        let mut facts = Facts::new(alloc);
        enter_side(tree, Side::left(false, 0), &mut facts)?;
        Ok(Branches {
            version: Version::One,
            tree,
            facts,
            later: Vec::new(alloc),
            is_open: true,
        })
    }

    /// Reads the steps from here on as those of version 2. The branches stay the same. Takes no memory.
    pub fn begin_two(&mut self)
        ensures { (v : AnyVersion) (t : Tree Node) (opens : List Branch) → Stands self.old v t opens
            → Stands self.new Two t opens }
    {
        self.version = Version::Two;
    }

    /// Takes a step at the first open branch. False where no branch is open, or where the step's condition does not
    /// hold. After false, or where memory is refused, nothing is said of the branches.
    pub fn take(&mut self, step: Kind<'_>) -> Result<bool, Memory>
        ensures { IfOk result (HasTakenStep self.old (plain_kind step.entry) self.new) }
    {
        match step {
            Kind::Split { negated, position } => self.split(negated, position),
            Kind::Close(leaf) => self.close(leaf),
        }
    }

    /// Whether no branch is open. Takes no memory.
    pub fn is_closed(&self) -> bool
        ensures { (v : AnyVersion) (t : Tree Node) (opens : List Branch) → Stands self.now v t opens
            → IsTrue result ↔ (opens ≡ []) }
    {
        !self.is_open
    }

    /// Puts the two sides of the Or at `position` in the first branch's place, the left one first. With `negated`
    /// the position is one under the sign `~`, and an And of the tree is meant. False where no branch is open, or
    /// no Or is asserted there on the first one.
    fn split(&mut self, negated: bool, position: u64) -> Result<bool, Memory>
        ensures { IfOk result (HasTakenStep self.old (split_step negated position) self.new) }
    {
        if !self.is_open {
            return Ok(false);
        }
        let sides = children(self.tree, &self.facts, negated, position as usize);
        let Some((left, right)) = sides else {
            return Ok(false);
        };
        self.later.push(Later {
            facts: self.facts.len(),
            side: Side::right(self.version, negated, left, right),
        })?;
        enter_side(self.tree, Side::left(negated, left), &mut self.facts)?;
        Ok(true)
    }

    /// Closes the first branch by a leaf, so that the next one that waits is first. False where no branch
    /// is open, or the leaf does not close the first one.
    fn close(&mut self, leaf: Leaf<'_>) -> Result<bool, Memory>
        ensures { IfOk result (HasTakenStep self.old (close_step (plain_leaf leaf.entry)) self.new) }
    {
        if !self.is_open {
            return Ok(false);
        }
        if !closes(self.tree, &self.facts, leaf) {
            return Ok(false);
        }
        self.open_next()?;
        Ok(true)
    }

    /// Leaves the first branch, and enters the next one that waits.
    fn open_next(&mut self) -> Result<(), Memory>
        ensures { OnOk result ((v : AnyVersion) (t : Tree Node) (ps : Branch) (opens : List Branch)
            → Stands self.old v t (ps ∷ opens) → Stands self.new v t opens) }
    {
        match self.later.pop() {
            None => {
                self.is_open = false;
                Ok(())
            }
            Some(next) => {
                self.facts.truncate(next.facts);
                enter_side(self.tree, next.side, &mut self.facts)
            }
        }
    }
}
