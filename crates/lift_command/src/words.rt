ghost use Rattle.std.specs.Prelude.{◌≡◌, ◌++◌, codes, map, OnOk};
ghost use Rattle.std.specs.Fmt.{decimal};
ghost use Rattle.lift_command.specs.WrittenLines.{spaced_words};

use itoa::Buffer;
use pc_common::Memory;

/// Puts bytes after the text.
pub(crate) fn put(text: &mut Vec<u8>, bytes: &[u8]) -> Result<(), Memory>
    ensures { OnOk result (text.new.items ≡ text.old.items ++ bytes.now) }
{
    text.extend_from_slice(bytes)?;
    Ok(())
}

/// Puts a decimal number.
pub(crate) fn put_decimal(text: &mut Vec<u8>, number: u64) -> Result<(), Memory>
    ensures { OnOk result (text.new.items ≡ text.old.items ++ decimal number) }
{
    let mut digits = Buffer::new();
    put(text, digits.format(number).as_bytes())
}

/// Puts a decimal number after a space.
pub(crate) fn put_number(text: &mut Vec<u8>, number: u64) -> Result<(), Memory>
    ensures { OnOk result (text.new.items ≡ text.old.items ++ (codes " " ++ decimal number)) }
{
    put(text, b" ")?;
    put_decimal(text, number)
}

/// Puts decimal numbers, each after a space.
pub(crate) fn put_numbers(text: &mut Vec<u8>, numbers: &[u64]) -> Result<(), Memory>
    ensures { OnOk result (text.new.items ≡ text.old.items ++ spaced_words (map decimal numbers.now)) }
{
    for number in numbers {
        put_number(text, *number)?;
    }
    Ok(())
}
