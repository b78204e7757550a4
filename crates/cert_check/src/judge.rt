ghost use Rattle.std.specs.Prelude.{◌≡◌, []};
ghost use Rattle.cert_check.specs.Subjects.{question_of_subject};
ghost use Rattle.cert_check.specs.Ends.{checked_of};
ghost use Rattle.cert_check.specs.RawLines.{RawStands};
ghost use Rattle.cert_check.specs.Fed.{judge_view};
ghost use Rattle.cert_check.specs.LawsOfJudges.{judged_first, judged_taken, judged_whole};

use super::checked::Checked;
use super::next::advance;
use super::stage::Stage;
use super::subject::Subject;
use line_judge::Judge;
use pc_common::Memory;
use refutation::NodeRow;
use std::alloc::Global;

/// A judge of certificates of one subject.
pub(crate) struct CertificateJudge<'a> {
    alloc: Global,
    subject: Subject<'a>,
    row: NodeRow,
    stage: Stage<'a>,
}

// By hand: docs/DECISIONS.md, "Drops are written by hand".
impl Drop for CertificateJudge<'_> {
    fn drop(self) {
        let CertificateJudge {
            alloc: _,
            subject: _,
            row: _,
            stage: _,
        } = self;
    }
}

impl<'a> CertificateJudge<'a> {
    /// A judge that took no line. Takes no memory.
    pub(crate) fn new(alloc: Global, subject: Subject<'a>) -> CertificateJudge<'a>
        ensures subject { result.subject ≡ subject.entry }
        ensures stands { RawStands (question_of_subject subject.entry) result.stage [] }
    {
        CertificateJudge {
            alloc,
            subject,
            row: NodeRow::new(alloc),
            stage: Stage::Start,
        }
    }
}

impl<'a> CertificateJudge<'a> {
    /// What the lines so far are, where they are a whole certificate; else that the next line is wanting.
    pub(crate) fn verdict(&self) -> Checked
        ensures { result ≡ checked_of self.now.stage }
    {
        self.stage.verdict()
    }
}

impl<'a> Judge for CertificateJudge<'a> {
    ghost view = { judge_view };

    ghost stands_begins = { λ j lines stands. judged_taken j.subject j.stage lines stands.1 stands.2 };

    ghost begins_first = { λ j lines more begins. judged_first j.subject lines more begins };

    ghost whole_begins = { λ j lines whole. judged_whole j.subject lines whole };

    fn step(&mut self, line: &[u8]) -> Result<bool, Memory> {
        advance(
            self.alloc,
            &self.subject,
            &mut self.row,
            &mut self.stage,
            line,
        )
    }

    fn is_done(&self) -> bool {
        self.stage.is_end()
    }
}
