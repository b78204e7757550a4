ghost use Rattle.std.specs.Prelude.{◌≡◌};
ghost use Rattle.std.specs.Option.{option_map};
ghost use Rattle.lifted_facts.specs.declared.way.Way.TheVariants.{Member as MemberWay};
ghost use Rattle.lifted_facts.specs.Lifted.{derive, split, close, falsity, absent};
ghost use Rattle.lifted_facts.specs.Steps.{plain_step};
ghost use Rattle.lifted_check.specs.Decoding.{only_number, two_numbers, cycle_of, path_of, decoded};

use super::keyword::Keyword;
use lifted_facts::{FactLeaf, FactStep, Way};

/// The step that adds a part of a fact, with these numbers: one, that of the fact.
fn derive_with(way: Way, numbers: &[u64]) -> Option<FactStep<'_>>
    ensures { option_map plain_step result ≡ option_map (derive way) (only_number numbers.now) }
{
    match numbers {
        [number] => Some(FactStep::Derive(way, *number)),
        _ => None,
    }
}

/// The step `member` with these numbers: that of the fact, and a place.
fn member_with(numbers: &[u64]) -> Option<FactStep<'_>>
    ensures { option_map plain_step result ≡ option_map (λ r. derive (MemberWay r.1) r.0) (two_numbers numbers.now) }
{
    match numbers {
        [number, place] => Some(FactStep::Derive(Way::Member(*place), *number)),
        _ => None,
    }
}

/// The step `split` with these numbers.
fn split_with(numbers: &[u64]) -> Option<FactStep<'_>>
    ensures { option_map plain_step result ≡ option_map split (only_number numbers.now) }
{
    match numbers {
        [number] => Some(FactStep::Split(*number)),
        _ => None,
    }
}

/// The step `false` with these numbers.
fn false_with(numbers: &[u64]) -> Option<FactStep<'_>>
    ensures { option_map plain_step result ≡ option_map (λ k. close (falsity k)) (only_number numbers.now) }
{
    match numbers {
        [number] => Some(FactStep::Close(FactLeaf::False(*number))),
        _ => None,
    }
}

/// The step `absent` with these numbers.
fn absent_with(numbers: &[u64]) -> Option<FactStep<'_>>
    ensures { option_map plain_step result ≡ option_map (λ r. close (absent r.0 r.1)) (two_numbers numbers.now) }
{
    match numbers {
        [denial, number] => Some(FactStep::Close(FactLeaf::Absent(*denial, *number))),
        _ => None,
    }
}

/// The step `cycle` with these numbers.
fn cycle_with(numbers: &[u64]) -> Option<FactStep<'_>>
    ensures { option_map plain_step result ≡ cycle_of numbers.now }
{
    match numbers {
        [first, more @ ..] => Some(FactStep::Close(FactLeaf::Cycle(*first, more))),
        [] => None,
    }
}

/// The step `path` with these numbers.
fn path_with(numbers: &[u64]) -> Option<FactStep<'_>>
    ensures { option_map plain_step result ≡ path_of numbers.now }
{
    match numbers {
        [first, more @ .., denial] => Some(FactStep::Close(FactLeaf::Path(*first, more, *denial))),
        _ => None,
    }
}

/// The step of a keyword with these numbers; None where there is none. A step with a value is not made here. Takes no
/// memory.
pub(crate) fn step_of(keyword: Keyword, numbers: &[u64]) -> Option<FactStep<'_>>
    ensures { option_map plain_step result ≡ decoded keyword numbers.now }
{
    match keyword {
        Keyword::Left => derive_with(Way::Left, numbers),
        Keyword::Right => derive_with(Way::Right, numbers),
        Keyword::Not => derive_with(Way::Not, numbers),
        Keyword::Bind => derive_with(Way::Bind, numbers),
        Keyword::Inst => None,
        Keyword::Member => member_with(numbers),
        Keyword::Split => split_with(numbers),
        Keyword::False => false_with(numbers),
        Keyword::Cycle => cycle_with(numbers),
        Keyword::Path => path_with(numbers),
        Keyword::Absent => absent_with(numbers),
    }
}
