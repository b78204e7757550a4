ghost use Rattle.std.specs.Prelude.{◌≡◌, ◌<◌, [], ◌∷◌, length, IfSome};
ghost use Rattle.std.specs.Option.{option_map_or};
ghost use Rattle.pc_ground.specs.Words.{words};

/// The first word of a line, and what stands after its space; None where it is the only one.
pub(crate) fn first_word(line: &[u8]) -> (&[u8], Option<&[u8]>)
    ensures words { words line.now ≡ result.0.now ∷ option_map_or (λ rest. words rest.now) result.1 [] }
    ensures shorter { IfSome result.1 (λ rest. length rest.now < length line.now) }
{
    for (at, byte) in line.iter().enumerate() {
        if *byte == b' ' {
            return (&line[..at], Some(&line[at + 1..]));
        }
    }
    (line, None)
}
