ghost use Rattle.std.specs.Prelude.{◌≡◌, ◌∷◌, [], ℕ, List, MatchOption};
ghost use Rattle.command_base.specs.Inputs.{Inputs as Names};
ghost use Rattle.command_base.specs.Command.{word_bytes, Spell, IsNoCommand};

use super::cores::take_cores;
use super::inputs::Inputs;
use pc_ground::Version;

/// A command, as the words after the program's name spell it. There are no options. Each part of a command is the name
/// of a file, but for the version of `Check` and the number of `Gen`.
#[derive(Clone, Copy)]
pub enum Command<'a> {
    /// The words are `check MODEL TEST`, or `check2 MODEL TEST` for refutations of version 2.
    Check(Version, Inputs<'a>),
    /// The words are `verify MODEL TEST CERT`.
    Verify {
        inputs: Inputs<'a>,
        certificate: &'a str,
    },
    /// The words are `core MODEL TEST`.
    Core(Inputs<'a>),
    /// The words are `check86 MODEL FILE`.
    CheckListing(Inputs<'a>),
    /// The words are `verify86 MODEL FILE CERT`.
    VerifyListing {
        inputs: Inputs<'a>,
        certificate: &'a str,
    },
    /// The words are `sweep MODEL PATTERN`.
    Sweep(Inputs<'a>),
    /// The words are `verify-lifted MODEL TEST CERT`.
    VerifyLifted {
        inputs: Inputs<'a>,
        certificate: &'a str,
    },
    /// The words are `ask MODEL TEST QUERY`.
    Ask {
        inputs: Inputs<'a>,
        query: &'a str,
    },
    /// The words are `lift MODEL TEST CERT`.
    Lift {
        inputs: Inputs<'a>,
        certificate: &'a str,
    },
    /// The words are `gen N`, with N from 2 to 16 in decimal.
    Gen(u8),
}

/// The names of a model and of a test, where the words are this one and these two.
fn take_inputs<'a>(word: &str, words: &'a [String]) -> Option<Inputs<'a>>
    ensures { MatchOption result
        ((i : Names) → word_bytes words.now ≡ word.now ∷ i.model ∷ i.test ∷ [] → ⊥)
        (λ i. word_bytes words.now ≡ word.now ∷ i.model.now ∷ i.test.now ∷ []) }
{
    let [first, model, test] = words else {
        return None;
    };
    if first.as_str() != word {
        return None;
    }
    Some(Inputs {
        model: model.as_str(),
        test: test.as_str(),
    })
}

/// The names of a model, of a test and of a third file, where the words are this one and these three.
fn take_three<'a>(word: &str, words: &'a [String]) -> Option<(Inputs<'a>, &'a str)>
    ensures { MatchOption result
        ((i : Names) (third : List ℕ) → word_bytes words.now ≡ word.now ∷ i.model ∷ i.test ∷ third ∷ [] → ⊥)
        (λ p. word_bytes words.now ≡ word.now ∷ p.0.model.now ∷ p.0.test.now ∷ p.1.now ∷ []) }
{
    let [first, model, test, third] = words else {
        return None;
    };
    if first.as_str() != word {
        return None;
    }
    let inputs = Inputs {
        model: model.as_str(),
        test: test.as_str(),
    };
    Some((inputs, third.as_str()))
}

/// The command that the words are, if they are one. They are those after the program's name.
pub fn parse<'a>(words: &'a [String]) -> Option<Command<'a>>
    ensures { MatchOption result (IsNoCommand (word_bytes words.now)) (Spell (word_bytes words.now)) }
{
    if let Some(inputs) = take_inputs("check", words) {
        return Some(Command::Check(Version::One, inputs));
    }
    if let Some(inputs) = take_inputs("check2", words) {
        return Some(Command::Check(Version::Two, inputs));
    }
    if let Some((inputs, certificate)) = take_three("verify", words) {
        return Some(Command::Verify {
            inputs,
            certificate,
        });
    }
    if let Some(inputs) = take_inputs("core", words) {
        return Some(Command::Core(inputs));
    }
    if let Some(inputs) = take_inputs("check86", words) {
        return Some(Command::CheckListing(inputs));
    }
    if let Some((inputs, certificate)) = take_three("verify86", words) {
        return Some(Command::VerifyListing {
            inputs,
            certificate,
        });
    }
    if let Some(inputs) = take_inputs("sweep", words) {
        return Some(Command::Sweep(inputs));
    }
    if let Some((inputs, certificate)) = take_three("verify-lifted", words) {
        return Some(Command::VerifyLifted {
            inputs,
            certificate,
        });
    }
    if let Some((inputs, query)) = take_three("ask", words) {
        return Some(Command::Ask { inputs, query });
    }
    if let Some((inputs, certificate)) = take_three("lift", words) {
        return Some(Command::Lift {
            inputs,
            certificate,
        });
    }
    let n = take_cores(words)?;
    Some(Command::Gen(n))
}
