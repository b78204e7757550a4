ghost use Rattle.std.specs.Prelude.{◌≡◌};
ghost use Rattle.pc_common.specs.Writes.{Writes};
ghost use Rattle.lift_command.specs.LiftTexts.{lift_status as lift_status_of, lift_text};

use super::lifting::FoundLift;
use cert_check::Checked;
use command_base::write_checked;
use pc_common::{Failed, Sink, Status, write_all};

/// Writes the text of a lifted refutation; or the line that `verify` writes of a graph that holds, or of a refused
/// text. Takes no memory.
pub fn write_lift<K: Sink>(out: &mut K, found: &FoundLift) -> Result<(), Failed>
    ensures { Writes K.view out.old out.new result (lift_text found.now) }
{
    match found {
        FoundLift::Observable => write_checked(out, Checked::Observable),
        FoundLift::Text(text) => write_all(out, text),
        FoundLift::Refused(number) => write_checked(out, Checked::Refused(*number)),
    }
}

/// The status of what was made of a certificate.
pub fn lift_status(found: &FoundLift) -> Status
    ensures { result ≡ lift_status_of found.now }
{
    match found {
        FoundLift::Observable => Status::Observable,
        FoundLift::Text(_) => Status::Done,
        FoundLift::Refused(_) => Status::CertRefused,
    }
}
