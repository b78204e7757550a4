ghost use Rattle.std.specs.Prelude.{◌≡◌};
ghost use Rattle.ask_command.specs.Asking.{word_of};

use super::outcome::AskWord;
use solver::Answer;

/// The word that the two answers tell: that on the front with the formula, and that on the front with its denial.
pub fn word(added: &Answer, against: &Answer) -> AskWord
    ensures { result ≡ word_of added.now against.now }
{
    match added {
        Answer::Observable(_) => match against {
            Answer::Observable(_) => AskWord::Sometimes,
            Answer::Unobservable(_) => AskWord::Always,
        },
        Answer::Unobservable(_) => match against {
            Answer::Observable(_) => AskWord::Never,
            Answer::Unobservable(_) => AskWord::Vacuous,
        },
    }
}
