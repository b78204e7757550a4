ghost use Rattle.std.specs.Prelude.{◌≡◌, ◌++◌, codes};
ghost use Rattle.std.specs.Fmt.{decimal};
ghost use Rattle.pc_common.specs.Writes.{Writes};
ghost use Rattle.command_base.specs.CheckedTexts.{checked_status as checked_status_of, checked_text};

use super::pieces::write_pieces;
use cert_check::Checked;
use itoa::Buffer;
use pc_common::{Failed, Sink, Status, write_all};

/// Writes the line of a refused certificate.
fn write_refused<K: Sink>(out: &mut K, number: u64) -> Result<(), Failed>
    ensures { Writes K.view out.old out.new result (codes "certificate refused at line " ++ decimal number ++ codes "\n") }
{
    let mut digits = Buffer::new();
    write_pieces(
        out,
        &[
            b"certificate refused at line ",
            digits.format(number).as_bytes(),
            b"\n",
        ],
    )
}

/// Writes the line of what a text was found to be. Takes no memory.
pub fn write_checked<K: Sink>(out: &mut K, checked: Checked) -> Result<(), Failed>
    ensures { Writes K.view out.old out.new result (checked_text checked) }
{
    match checked {
        Checked::Observable => write_all(out, b"verified observable\n"),
        Checked::Unobservable => write_all(out, b"verified unobservable\n"),
        Checked::Refused(number) => write_refused(out, number),
    }
}

/// The status of what a text was found to be.
pub fn checked_status(checked: Checked) -> Status
    ensures { result ≡ checked_status_of checked }
{
    match checked {
        Checked::Observable => Status::Observable,
        Checked::Unobservable => Status::Unobservable,
        Checked::Refused(_) => Status::CertRefused,
    }
}
