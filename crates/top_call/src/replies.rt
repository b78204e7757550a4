ghost use Rattle.std.specs.Prelude.{◌≡◌, ⊤, length};
ghost use Rattle.pc_common.specs.declared.status.Status.TheVariants.{Done, Usage};
ghost use Rattle.pc_ground.specs.NodeForm.{names_of};
ghost use Rattle.command_base.specs.Endings.{ending_status as status_of_ending, ending_text};
ghost use Rattle.command_base.specs.CheckedTexts.{checked_status as status_of_checked, checked_text};
ghost use Rattle.verdicts.specs.Verdicts.{verdict_text, status_of, IsWritable};
ghost use Rattle.core_command.specs.Found.{found_text as core_text, IsCoreWritable};
ghost use Rattle.sweep_command.specs.Texts.{swept_text};
ghost use Rattle.pattern_reader.specs.Rows.{rows_of};
ghost use Rattle.verify_command.specs.LiftedTexts.{lifted_status as status_of_lifted, lifted_text};
ghost use Rattle.ask_command.specs.FoundAsks.{found_text as ask_text, IsAskWritable};
ghost use Rattle.lift_command.specs.LiftTexts.{lift_status as status_of_lift, lift_text};
ghost use Rattle.gen_command.specs.Reports.{report_text};
ghost use Rattle.top_call.specs.Answers.{usage_text};

use super::reply::Reply;
use ask_command::{FoundAsk, write_ask};
use cert_check::Checked;
use command_base::{Ending, checked_status, ending_status, write_checked, write_ending};
use core_command::{FoundCore, write_core};
use gen_command::{Report, write_report};
use lift_command::{FoundLift, lift_status, write_lift};
use lifted_check::Lifted;
use pc_common::{Failed, Sink, Status, write_all};
use sweep_command::{Swept, write_sweep};
use verdicts::{FoundVerdict, verdict_status, write_verdict};
use verify_command::{lifted_status, write_lifted};

/// The words are no command.
#[derive(Drop)]
pub(crate) struct NoCommand;

impl Reply for NoCommand {
    ghost text = { λ n. usage_text };

    ghost ends_with = { λ n. Usage };

    ghost writable = { λ n. ⊤ };

    fn write<K: Sink>(&self, out: &mut K) -> Result<(), Failed> {
        write_all(out, b"pipecheck: bad command line\n")
    }

    fn status(&self) -> Status {
        Status::Usage
    }
}

impl Reply for Ending {
    ghost text = { ending_text };

    ghost ends_with = { status_of_ending };

    ghost writable = { λ e. ⊤ };

    fn write<K: Sink>(&self, out: &mut K) -> Result<(), Failed> {
        write_ending(out, self)
    }

    fn status(&self) -> Status {
        ending_status(self)
    }
}

impl Reply for FoundVerdict {
    ghost text = { verdict_text };

    ghost ends_with = { λ v. status_of v.found };

    ghost writable = { λ v. IsWritable (names_of v.front) v.found };

    fn write<K: Sink>(&self, out: &mut K) -> Result<(), Failed> {
        write_verdict(out, self)
    }

    fn status(&self) -> Status {
        verdict_status(self)
    }
}

impl Reply for Checked {
    ghost text = { checked_text };

    ghost ends_with = { status_of_checked };

    ghost writable = { λ c. ⊤ };

    fn write<K: Sink>(&self, out: &mut K) -> Result<(), Failed> {
        write_checked(out, *self)
    }

    fn status(&self) -> Status {
        checked_status(*self)
    }
}

impl Reply for FoundCore {
    ghost text = { core_text };

    ghost ends_with = { λ f. Done };

    ghost writable = { IsCoreWritable };

    fn write<K: Sink>(&self, out: &mut K) -> Result<(), Failed> {
        write_core(out, self)
    }

    fn status(&self) -> Status {
        Status::Done
    }
}

impl Reply for Swept {
    ghost text = { swept_text };

    ghost ends_with = { λ s. Done };

    ghost writable = { λ s. length s.answers.items ≡ rows_of s.pattern };

    fn write<K: Sink>(&self, out: &mut K) -> Result<(), Failed> {
        write_sweep(out, self)
    }

    fn status(&self) -> Status {
        Status::Done
    }
}

impl Reply for Lifted {
    ghost text = { lifted_text };

    ghost ends_with = { status_of_lifted };

    ghost writable = { λ l. ⊤ };

    fn write<K: Sink>(&self, out: &mut K) -> Result<(), Failed> {
        write_lifted(out, *self)
    }

    fn status(&self) -> Status {
        lifted_status(*self)
    }
}

impl Reply for FoundAsk {
    ghost text = { ask_text };

    ghost ends_with = { λ f. Done };

    ghost writable = { IsAskWritable };

    fn write<K: Sink>(&self, out: &mut K) -> Result<(), Failed> {
        write_ask(out, self)
    }

    fn status(&self) -> Status {
        Status::Done
    }
}

impl Reply for FoundLift {
    ghost text = { lift_text };

    ghost ends_with = { status_of_lift };

    ghost writable = { λ f. ⊤ };

    fn write<K: Sink>(&self, out: &mut K) -> Result<(), Failed> {
        write_lift(out, self)
    }

    fn status(&self) -> Status {
        lift_status(self)
    }
}

impl Reply for Report {
    ghost text = { report_text };

    ghost ends_with = { λ r. Done };

    ghost writable = { λ r. ⊤ };

    fn write<K: Sink>(&self, out: &mut K) -> Result<(), Failed> {
        write_report(out, self)
    }

    fn status(&self) -> Status {
        Status::Done
    }
}
