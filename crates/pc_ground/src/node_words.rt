ghost use Rattle.std.specs.Prelude.{◌≡◌, MatchOption};
ghost use Rattle.pc_ground.specs.NodeForm.{IsNodeForm};
ghost use Rattle.pc_ground.specs.NodeWords.{Lacks, IsCut, AreWords};

use super::decimal::decimal_value;

/// The parts of a node's text, g.n@core:Stage.
#[derive(Clone, Copy)]
pub(crate) struct NodeWords<'a> {
    pub(crate) g: u64,
    pub(crate) n: u64,
    pub(crate) core: u64,
    pub(crate) stage: &'a [u8],
}

/// What stands before the first byte `mark`, and what after it; None where there is none.
fn cut(word: &[u8], mark: u8) -> Option<(&[u8], &[u8])>
    ensures { MatchOption result (Lacks mark word.now) (λ r. IsCut mark word.now r.0.now r.1.now) }
{
    for (at, byte) in word.iter().enumerate() {
        if *byte == mark {
            return Some((&word[..at], &word[at + 1..]));
        }
    }
    None
}

/// The parts of a word that has the form of a node's text, but that its stage need be no name; None where it has not.
pub(crate) fn node_words(word: &[u8]) -> Option<NodeWords<'_>>
    ensures { MatchOption result (IsNodeForm word.now → ⊥) (λ w. AreWords word.now w) }
{
    let (g, rest) = cut(word, b'.')?;
    let (n, rest) = cut(rest, b'@')?;
    let (core, stage) = cut(rest, b':')?;
    Some(NodeWords {
        g: decimal_value(g)?,
        n: decimal_value(n)?,
        core: decimal_value(core)?,
        stage,
    })
}
