ghost use Rattle.std.specs.Prelude.{◌≡◌, ◌++◌, MatchOption, codes, true, ◌↔◌, ℕ, List};
ghost use Rattle.pc_common.specs.Lines.{Verdict as PlainVerdict, observable, unobservable, verdict_text, second_text};
ghost use Rattle.pc_case.specs.Plain.{expectation};
ghost use Rattle.cert_check.specs.Verdicts.{plain_verdict};
ghost use Rattle.cert_check.specs.StepTexts.{header_text};

use pc_case::Expect;

/// What a certificate says of the outcome.
#[derive(Clone, Copy, PartialEq, Eq)]
pub enum Verdict {
    /// Some order of the events shows it.
    Observable,
    /// No order shows it.
    Unobservable,
}

/// The first line of a certificate, with its LF.
pub fn verdict_line(verdict: Verdict) -> &'static [u8]
    ensures { result.now ≡ verdict_text (plain_verdict verdict) ++ codes "\n" }
{
    match verdict {
        Verdict::Observable => b"observable\n",
        Verdict::Unobservable => b"unobservable\n",
    }
}

/// The second line where the outcome is observable, by what the test states.
fn seen_line(expect: Expect) -> &'static [u8]
    ensures { result.now ≡ second_text observable (expectation expect) ++ codes "\n" }
{
    match expect {
        Expect::Permitted => b"test permitted: ok\n",
        Expect::Forbidden => b"test forbidden: BUG\n",
        Expect::Unstated => b"test unstated\n",
    }
}

/// The second line where the outcome is not observable, by what the test states.
fn unseen_line(expect: Expect) -> &'static [u8]
    ensures { result.now ≡ second_text unobservable (expectation expect) ++ codes "\n" }
{
    match expect {
        Expect::Permitted => b"test permitted: stricter\n",
        Expect::Forbidden => b"test forbidden: ok\n",
        Expect::Unstated => b"test unstated\n",
    }
}

/// The second line of a certificate, with its LF: how the verdict compares with what the test states.
pub fn second_line(verdict: Verdict, expect: Expect) -> &'static [u8]
    ensures { result.now ≡ second_text (plain_verdict verdict) (expectation expect) ++ codes "\n" }
{
    match verdict {
        Verdict::Observable => seen_line(expect),
        Verdict::Unobservable => unseen_line(expect),
    }
}

/// The verdict that a line says, without its LF; None where it says none.
pub(crate) fn verdict_of(line: &[u8]) -> Option<Verdict>
    ensures { MatchOption result ((v : PlainVerdict) → line.now ≡ verdict_text v → ⊥)
        (λ v. line.now ≡ verdict_text (plain_verdict v)) }
{
    if line == b"observable".as_slice() {
        return Some(Verdict::Observable);
    }
    if line == b"unobservable".as_slice() {
        return Some(Verdict::Unobservable);
    }
    None
}

/// Whether a line, without its LF, is the second one of this verdict.
pub(crate) fn is_second(line: &[u8], verdict: Verdict, expect: Expect) -> bool
    ensures { (result ≡ true) ↔ (line.now ≡ second_text (plain_verdict verdict) (expectation expect)) }
{
    let wanted = second_line(verdict, expect);
    line == &wanted[..wanted.len() - 1]
}

/// What stands after the header of a refutation, by what the test states; None where it does not stand in front.
pub(crate) fn behind_header(expect: Expect, text: &[u8]) -> Option<&[u8]>
    ensures { MatchOption result ((rest : List ℕ) → text.now ≡ header_text (expectation expect) ++ rest → ⊥)
        (λ rest. text.now ≡ header_text (expectation expect) ++ rest.now) }
{
    let rest = text.strip_prefix(verdict_line(Verdict::Unobservable))?;
    rest.strip_prefix(second_line(Verdict::Unobservable, expect))
}
