ghost use Rattle.std.specs.Prelude.{◌≡◌, ◌≢◌};

use std::io::ErrorKind;

/// The exit number of a program that can't have its words: 7 for want of memory, 8 for any other cause, as a word that
/// is not UTF-8.
pub fn number_without(cause: ErrorKind) -> u8
    ensures memory { cause ≡ ErrorKind.OutOfMemory → result ≡ 7 }
    ensures other { cause ≢ ErrorKind.OutOfMemory → result ≡ 8 }
{
    match cause {
        ErrorKind::OutOfMemory => 7,
        _ => 8,
    }
}
