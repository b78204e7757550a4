ghost use Rattle.std.specs.Prelude.{◌≡◌, ◌<◌, [], ◌∷◌, length, IfSome, MatchOption};
ghost use Rattle.std.specs.Option.{option_map_or};
ghost use Rattle.pc_ground.specs.NodeWords.{Lacks, IsCut};
ghost use Rattle.pc_ground.specs.Words.{words};

/// What stands before the first byte `mark`, and what after it; None where there is none.
pub(crate) fn cut(word: &[u8], mark: u8) -> Option<(&[u8], &[u8])>
    ensures cut { MatchOption result (Lacks mark word.now) (λ r. IsCut mark word.now r.0.now r.1.now) }
    ensures shorter { IfSome result (λ r. length r.1.now < length word.now) }
{
    for (at, byte) in word.iter().enumerate() {
        if *byte == mark {
            return Some((&word[..at], &word[at + 1..]));
        }
    }
    None
}

/// The first word of a line, and what stands after its space; None where it is the only one.
pub(crate) fn first_word(line: &[u8]) -> (&[u8], Option<&[u8]>)
    ensures words { words line.now ≡ result.0.now ∷ option_map_or (λ rest. words rest.now) result.1 [] }
    ensures shorter { IfSome result.1 (λ rest. length rest.now < length line.now) }
{
    match cut(line, b' ') {
        Some((word, rest)) => (word, Some(rest)),
        None => (line, None),
    }
}
