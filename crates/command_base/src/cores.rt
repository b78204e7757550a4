ghost use Rattle.std.specs.Prelude.{◌≡◌, ◌≤◌, ◌↔◌, ℕ, true, MatchOption};
ghost use Rattle.std.specs.Fmt.{decimal};
ghost use Rattle.command_base.specs.Command.{gen, word_bytes, IsCommand};

use itoa::Buffer;

/// Whether the text is this number in decimal.
fn is_decimal(text: &str, n: u8) -> bool
    ensures { (result ≡ true) ↔ (text.now ≡ decimal n) }
{
    let mut digits = Buffer::new();
    text == digits.format(n)
}

/// The number from 2 to 16 that the text is in decimal.
fn cores(text: &str) -> Option<u8>
    ensures { MatchOption result
        ((n : ℕ) → 2 ≤ n → n ≤ 16 → text.now ≡ decimal n → ⊥)
        (λ n. (2 ≤ n) × (n ≤ 16) × (text.now ≡ decimal n)) }
{
    for n in 2..17 {
        if is_decimal(text, n) {
            return Some(n);
        }
    }
    None
}

/// The number of cores, where the words are `gen` and this number.
pub(crate) fn take_cores(words: &[String]) -> Option<u8>
    ensures { MatchOption result
        ((n : ℕ) → IsCommand (word_bytes words.now) (gen n) → ⊥)
        (λ n. IsCommand (word_bytes words.now) (gen n)) }
{
    let [first, number] = words else {
        return None;
    };
    if first.as_str() != "gen" {
        return None;
    }
    cores(number.as_str())
}
