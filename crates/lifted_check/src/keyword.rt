ghost use Rattle.std.specs.Prelude.{◌≡◌, MatchOption};
ghost use Rattle.lifted_check.specs.declared.keyword.Keyword.{Keyword as AnyKeyword};
ghost use Rattle.lifted_check.specs.StepLines.{keyword_text};
ghost use Rattle.lifted_check.specs.Decoding.{IsPartKeyword};

/// The word that a step's line begins with.
#[derive(Clone, Copy)]
pub(crate) enum Keyword {
    Left,
    Right,
    Not,
    Bind,
    Inst,
    Member,
    Split,
    False,
    Cycle,
    Path,
    Absent,
}

/// The keyword of this text, where its step adds a part of a fact; else None.
fn part_keyword(word: &[u8]) -> Option<Keyword>
    ensures { MatchOption result ((k : AnyKeyword) → IsPartKeyword k → word.now ≡ keyword_text k → ⊥)
        (λ k. word.now ≡ keyword_text k) }
{
    if word == b"left".as_slice() {
        Some(Keyword::Left)
    } else if word == b"right".as_slice() {
        Some(Keyword::Right)
    } else if word == b"not".as_slice() {
        Some(Keyword::Not)
    } else if word == b"bind".as_slice() {
        Some(Keyword::Bind)
    } else if word == b"inst".as_slice() {
        Some(Keyword::Inst)
    } else if word == b"member".as_slice() {
        Some(Keyword::Member)
    } else {
        None
    }
}

/// The keyword of this text, where its step splits or closes a branch; else None.
fn branch_keyword(word: &[u8]) -> Option<Keyword>
    ensures { MatchOption result ((k : AnyKeyword) → (IsPartKeyword k → ⊥) → word.now ≡ keyword_text k → ⊥)
        (λ k. word.now ≡ keyword_text k) }
{
    if word == b"split".as_slice() {
        Some(Keyword::Split)
    } else if word == b"false".as_slice() {
        Some(Keyword::False)
    } else if word == b"cycle".as_slice() {
        Some(Keyword::Cycle)
    } else if word == b"path".as_slice() {
        Some(Keyword::Path)
    } else if word == b"absent".as_slice() {
        Some(Keyword::Absent)
    } else {
        None
    }
}

/// The keyword of this text; None where it is of none. Takes no memory.
pub(crate) fn keyword_named(word: &[u8]) -> Option<Keyword>
    ensures { MatchOption result ((k : AnyKeyword) → word.now ≡ keyword_text k → ⊥) (λ k. word.now ≡ keyword_text k) }
{
    match part_keyword(word) {
        Some(keyword) => Some(keyword),
        None => branch_keyword(word),
    }
}
