ghost use Rattle.std.specs.Prelude.{◌≡◌};
ghost use Rattle.pc_common.specs.Writes.{Writes};
ghost use Rattle.verify_command.specs.LiftedTexts.{lifted_status as lifted_status_of, lifted_text};

use cert_check::Checked;
use command_base::write_checked;
use lifted_check::Lifted;
use pc_common::{Failed, Sink, Status};

/// Writes the line of what a text was found to be, which is that of `verify`.
pub fn write_lifted<K: Sink>(out: &mut K, lifted: Lifted) -> Result<(), Failed>
    ensures { Writes K.view out.old out.new result (lifted_text lifted) }
{
    match lifted {
        Lifted::Unobservable => write_checked(out, Checked::Unobservable),
        Lifted::Refused(number) => write_checked(out, Checked::Refused(number)),
    }
}

/// The status of what a text was found to be.
pub fn lifted_status(lifted: Lifted) -> Status
    ensures { result ≡ lifted_status_of lifted }
{
    match lifted {
        Lifted::Unobservable => Status::Unobservable,
        Lifted::Refused(_) => Status::CertRefused,
    }
}
