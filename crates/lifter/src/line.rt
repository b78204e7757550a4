ghost use Rattle.std.specs.Prelude.{◌≡◌, ◌<◌, ◌^◌, ◌++◌, ◌∷◌, [], Some, length, map, slice_get, is_ok, if◌then◌else◌};
ghost use Rattle.lifted_facts.specs.Lifted.{LiftedStep};
ghost use Rattle.lifter.specs.WrittenSteps.{plain_line};

use lifted_facts::Way;
use pc_common::{Listed, Memory};
use std::alloc::Global;
use std::marker::Model;

/// Numbers of facts.
pub type FactNumbers = Listed<u64>;

/// One step of a lifted refutation. Facts are named by their numbers, from 0.
pub enum Line {
    /// Adds the part of a fact that is named so.
    Derive(Way, u64),
    /// Puts two branches in the place of one, each with one side of the fact more.
    Split(u64),
    /// The fact holds in no world.
    False(u64),
    /// The edges, of which the first stands apart, are joined and end where they begin.
    Cycle(u64, FactNumbers),
    /// The edges, of which the first stands apart, are joined, and the last fact denies an edge from their start to
    /// their end.
    Path(u64, FactNumbers, u64),
    /// The first fact denies a node that the second one asserts, by itself or as an end of an edge.
    Absent(u64, u64),
}

// By hand: docs/DECISIONS.md, "Drops are written by hand".
impl Drop for Line {
    fn drop(self) {
        match self {
            Line::Derive(_, _) => {}
            Line::Split(_) => {}
            Line::False(_) => {}
            Line::Cycle(_, _) => {}
            Line::Path(_, _, _) => {}
            Line::Absent(_, _) => {}
        }
    }
}

/// The steps of a lifted refutation so far.
pub struct LiftedSteps {
    lines: Listed<Line>,
}

// By hand: docs/DECISIONS.md, "Drops are written by hand".
impl Drop for LiftedSteps {
    fn drop(self) {
        let LiftedSteps { lines: _ } = self;
    }
}

impl Model for LiftedSteps {
    ghost use Rattle.std.specs.Prelude.{List, map};
    ghost use Rattle.lifted_facts.specs.Lifted.{LiftedStep};
    ghost use Rattle.lifter.specs.WrittenSteps.{plain_line};

    ghost Value = { List LiftedStep };

    ghost view = { λ s. map plain_line s.lines };
}

impl LiftedSteps {
    /// No step. Takes no memory.
    pub(crate) fn new(alloc: Global) -> LiftedSteps
        ensures { result ≡ [] }
    {
        LiftedSteps {
            lines: Listed::new(alloc),
        }
    }

    /// One step more. Where memory is refused, nothing changes.
    pub(crate) fn push(&mut self, line: Line) -> Result<(), Memory>
        ensures { self.new ≡ (if is_ok result then self.old ++ plain_line line ∷ [] else self.old) }
    {
        self.lines.push(line)
    }

    /// How many steps there are. Takes no memory.
    pub fn len(&self) -> usize
        ensures count { result ≡ length self.now }
        ensures bound { length self.now < 2 ^ 63 }
    {
        self.lines.len()
    }

    /// The step at `k`, from 0. Takes no memory.
    pub fn line(&self, k: usize) -> &Line
        requires { k < length self.now }
        ensures { slice_get self.now k ≡ Some (plain_line result.now) }
    {
        self.lines.get(k)
    }
}
