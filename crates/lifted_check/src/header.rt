ghost use Rattle.std.specs.Prelude.{◌≡◌, ◌↔◌, codes, true};
ghost use Rattle.pc_common.specs.Lines.{unobservable, second_text};
ghost use Rattle.pc_case.specs.Plain.{expectation};

use pc_case::Expect;

/// The second line, by what the test states.
fn second_line(expect: Expect) -> &'static [u8]
    ensures { result.now ≡ second_text unobservable (expectation expect) }
{
    match expect {
        Expect::Permitted => b"test permitted: stricter",
        Expect::Forbidden => b"test forbidden: ok",
        Expect::Unstated => b"test unstated",
    }
}

/// Whether a line is the second one.
pub(crate) fn is_second(line: &[u8], expect: Expect) -> bool
    ensures { (result ≡ true) ↔ (line.now ≡ second_text unobservable (expectation expect)) }
{
    line == second_line(expect)
}

/// Whether a line is the first one.
pub(crate) fn is_first(line: &[u8]) -> bool
    ensures { (result ≡ true) ↔ (line.now ≡ codes "unobservable") }
{
    line == b"unobservable".as_slice()
}

/// Whether a line says that the refutation is a lifted one, as the third one does.
pub(crate) fn is_third(line: &[u8]) -> bool
    ensures { (result ≡ true) ↔ (line.now ≡ codes "lifted") }
{
    line == b"lifted".as_slice()
}

/// Whether a line is the last one.
pub(crate) fn is_last(line: &[u8]) -> bool
    ensures { (result ≡ true) ↔ (line.now ≡ codes "end") }
{
    line == b"end".as_slice()
}
