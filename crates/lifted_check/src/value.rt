ghost use Rattle.std.specs.Prelude.{◌≡◌, ◌∷◌, [], ◌++◌, ℕ, codes, MatchOption};
ghost use Rattle.std.specs.Fmt.{decimal};
ghost use Rattle.lifted_check.specs.StepLines.{IsSmall, IsValue, value_text};
ghost use Rattle.lifted_facts.specs.declared.way.Instance.{Instance as AnyInstance};
ghost use Rattle.pc_ground.specs.Words.{words};

use super::words::{cut, first_word};
use lifted_facts::Instance;
use pc_case::{Case, OpId};
use pc_ground::decimal_value;

/// The name of a micro-op that a word is, g.n; None where it is none.
fn name_of(word: &[u8]) -> Option<OpId>
    ensures { MatchOption result
        ((g n : ℕ) → IsSmall g → IsSmall n → word.now ≡ decimal g ++ codes "." ++ decimal n → ⊥)
        (λ id. IsSmall id.g × IsSmall id.n × (word.now ≡ decimal id.g ++ codes "." ++ decimal id.n)) }
{
    let (g, n) = cut(word, b'.')?;
    Some(OpId {
        g: decimal_value(g)?,
        n: decimal_value(n)?,
    })
}

/// The value that a word names: a micro-op of the test by its name, or a core by its number; None where it names none.
fn value_of(case: &Case, word: &[u8]) -> Option<Instance>
    ensures { MatchOption result ((v : AnyInstance) → IsValue case.now.ops v → word.now ≡ value_text case.now.ops v → ⊥)
        (λ v. IsValue case.now.ops v × (word.now ≡ value_text case.now.ops v)) }
{
    match name_of(word) {
        Some(id) => Some(Instance::Op(case.find(id)? as u64)),
        None => Some(Instance::Core(decimal_value(word)?)),
    }
}

/// Reads a text of two words as a number and a value; None where it is none.
pub(crate) fn read_instance(case: &Case, text: &[u8]) -> Option<(u64, Instance)>
    ensures { MatchOption result ((k : ℕ) (v : AnyInstance) → IsSmall k → IsValue case.now.ops v
        → words text.now ≡ decimal k ∷ value_text case.now.ops v ∷ [] → ⊥)
        (λ r. IsSmall r.0 × IsValue case.now.ops r.1
        × (words text.now ≡ decimal r.0 ∷ value_text case.now.ops r.1 ∷ [])) }
{
    let (number, rest) = cut(text, b' ')?;
    Some((decimal_value(number)?, value_of(case, rest)?))
}
