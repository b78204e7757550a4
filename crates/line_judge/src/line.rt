ghost use Rattle.std.specs.Prelude.{MatchOption};
ghost use Rattle.line_judge.specs.Texts.{IsLine, IsFirstLine};

use memchr::memchr;

/// The first line without its LF, and what stands after the LF. None where there is no LF. Takes no memory.
pub fn split_line(text: &[u8]) -> Option<(&[u8], &[u8])>
    ensures { MatchOption result (IsLine text.now) (λ parts. IsFirstLine text.now parts.0.now parts.1.now) }
{
    let at = memchr(b'\n', text)?;
    Some((&text[..at], &text[at + 1..]))
}
