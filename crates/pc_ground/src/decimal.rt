ghost use Rattle.std.specs.Prelude.{◌≡◌, ◌≤◌, ℕ, MatchOption};
ghost use Rattle.pc_ground.specs.Decimals.{IsDecimal, IsDigits};

/// The number that these bytes are the decimal of, without leading zeros and at most
/// 18446744073709551615; None where they are of none. Takes no memory.
pub fn decimal_value(bytes: &[u8]) -> Option<u64>
    ensures { MatchOption result ((n : ℕ) → IsDecimal bytes.now n → ⊥) (λ n. IsDecimal bytes.now n) }
{
    if bytes.is_empty() {
        return None;
    }
    if bytes[0] == b'0' {
        return if bytes.len() == 1 { Some(0) } else { None };
    }
    digits_value(bytes)
}

/// The value of decimal digits; None where a byte is no digit or past the greatest `u64`.
fn digits_value(digits: &[u8]) -> Option<u64>
    ensures { MatchOption result ((n : ℕ) → IsDecimal digits.now n → ⊥)
        (λ n. (n ≤ 18446744073709551615) × IsDigits digits.now n) }
{
    let mut value: u64 = 0;
    for digit in digits {
        if !digit.is_ascii_digit() {
            return None;
        }
        value = value
            .checked_mul(10)?
            .checked_add(u64::from(*digit - b'0'))?;
    }
    Some(value)
}
