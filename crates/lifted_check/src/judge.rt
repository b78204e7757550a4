ghost use Rattle.std.specs.Prelude.{◌≡◌, []};
ghost use Rattle.lifted_check.specs.LiftedTexts.{asked};
ghost use Rattle.lifted_check.specs.Stages.{Stands};
ghost use Rattle.lifted_check.specs.Fed.{judge_view};
ghost use Rattle.lifted_check.specs.Laws.{first_begins, taken_begins, whole_begins};

use super::next::advance;
use super::stage::Stage;
use line_judge::Judge;
use pc_case::Case;
use pc_common::Memory;
use pc_syntax::Closed;
use std::alloc::Global;

/// A judge of lifted texts over one test and its axioms.
pub(crate) struct LiftedJudge<'a> {
    alloc: Global,
    case: &'a Case,
    axioms: &'a [Closed],
    // the numbers of the line that is read; it keeps its room from line to line
    row: Vec<u64>,
    stage: Stage<'a>,
}

// By hand: docs/DECISIONS.md, "Drops are written by hand".
impl Drop for LiftedJudge<'_> {
    fn drop(self) {
        let LiftedJudge {
            alloc: _,
            case: _,
            axioms: _,
            row: _,
            stage: _,
        } = self;
    }
}

impl<'a> LiftedJudge<'a> {
    /// A judge that took no line. Takes no memory.
    pub(crate) fn new(alloc: Global, case: &'a Case, axioms: &'a [Closed]) -> LiftedJudge<'a>
        ensures case { result.case.now ≡ case.now }
        ensures axioms { result.axioms.now ≡ axioms.now }
        ensures stands { Stands (asked case.now axioms.now) result.stage [] }
    {
        // for the proof alone: a case keeps that no two of its micro-ops have one name
        let _ops = case.ops();
        LiftedJudge {
            alloc,
            case,
            axioms,
            row: Vec::new(alloc),
            stage: Stage::Start,
        }
    }
}

impl<'a> Judge for LiftedJudge<'a> {
    ghost view = { judge_view };

    ghost stands_begins = { λ j lines stands. taken_begins (asked j.case.now j.axioms.now) j.stage lines stands.1 };

    ghost begins_first = { λ j lines more begins. first_begins (asked j.case.now j.axioms.now) lines more begins };

    ghost whole_begins = { λ j lines whole. whole_begins (asked j.case.now j.axioms.now) lines whole };

    fn step(&mut self, line: &[u8]) -> Result<bool, Memory> {
        advance(
            self.alloc,
            self.case,
            self.axioms,
            &mut self.row,
            &mut self.stage,
            line,
        )
    }

    fn is_done(&self) -> bool {
        self.stage.is_end()
    }
}
