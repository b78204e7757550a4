ghost use Rattle.std.specs.Prelude.{◌≡◌, ◌<◌, ◌≤◌, ◌+◌, length, take, slice_index, sum};

// Marks are kept as how many there are at each number of literals, since many may stand at one number.

/// How many literals stood at the mark at this place among `live` marks, and how many marks stand at that
/// number up to it.
pub fn count_at(counts: &[u64], live: u64, mark: u64) -> (usize, u64)
    requires all { live ≡ sum counts.now }
    requires some { mark < live }
    requires first { 0 < length counts.now }
    ensures inside { result.0 < length counts.now }
    ensures place { sum (take result.0 counts.now) + result.1 ≡ mark + 1 }
    ensures low { 0 < result.1 }
    ensures high { result.1 ≤ slice_index counts.now result.0 }
{
    let mut at = counts.len() - 1;
    let mut before = live - counts[at];
    while before > mark {
        at -= 1;
        before -= counts[at];
    }
    (at, mark + 1 - before)
}
