ghost use Rattle.std.specs.Prelude.{◌≡◌, [], ℕ, List, All, map, IfOk, MatchBool};
ghost use Rattle.std.specs.Fmt.{decimal};
ghost use Rattle.lifted_check.specs.StepLines.{IsSmall};
ghost use Rattle.pc_ground.specs.Words.{words};

use super::words::first_word;
use pc_common::Memory;
use pc_ground::decimal_value;

/// Reads each word of the text as a decimal without leading zeros, and puts the numbers into the row. False where a
/// word is none.
pub(crate) fn read_numbers(text: &[u8], row: &mut Vec<u64>) -> Result<bool, Memory>
    requires { row.old.items ≡ [] }
    ensures { IfOk result (λ good. MatchBool good
        ((words text.now ≡ map decimal row.new.items) × All IsSmall row.new.items)
        ((ks : List ℕ) → All IsSmall ks → words text.now ≡ map decimal ks → ⊥)) }
{
    let mut left = Some(text);
    while let Some(rest) = left {
        let (word, behind) = first_word(rest);
        let Some(number) = decimal_value(word) else {
            return Ok(false);
        };
        row.push(number)?;
        left = behind;
    }
    Ok(true)
}
