ghost use Rattle.std.specs.Prelude.{◌≡◌, ◌<◌, ◌∷◌, [], ◌++◌, length, Some, IfSome};
ghost use Rattle.std.specs.Option.{option_map};
ghost use Rattle.pc_syntax.specs.Closed.{meaning_of, plain_closed};
ghost use Rattle.pc_syntax.specs.IsClosed.{IsClosed, with_sort};
ghost use Rattle.pc_syntax.specs.declared.limits.TheConstants.{MAX_VARIABLES};
ghost use Rattle.static_preds.specs.Slots.{AreInRange, IsInRange};
ghost use Rattle.static_preds.specs.Values.{meanings, sort_bound, scope_of};
ghost use Rattle.lifted_facts.specs.PlainFacts.{plain_fact, IsProper};
ghost use Rattle.lifted_facts.specs.Parts.{value_at_place, said_at};

use super::fact::{Fact, Said};
use pc_case::Case;
use pc_syntax::{Bound, ClosedFormula, Env, Sort};
use static_preds::{bind_next, copy_of, range_len, value_in_range};

/// The value at this place of a range, from 0; None where the range has no such place.
fn value_at(case: &Case, sort: Sort, place: u64) -> Option<Bound>
    ensures value { option_map meaning_of result ≡ value_at_place case.now sort place }
    ensures sort { IfSome result (λ v. sort_bound v ≡ sort) }
    ensures range { IfSome result (IsInRange case.now) }
    ensures small { IfSome result (λ v. place < 256) }
{
    if place >= u64::from(range_len(case, sort)) {
        return None;
    }
    Some(value_in_range(sort, place as u8))
}

/// The slots with one value more.
fn with_value(env: &Env, value: Bound) -> Env
    requires { length env.now.items < MAX_VARIABLES }
    ensures { result.items ≡ env.now.items ++ value ∷ [] }
{
    let mut inside = copy_of(env);
    bind_next(env, &mut inside, value);
    inside
}

/// The body of a quantifier at a place of its range; None where the range has no such place.
pub(crate) fn at_place<'a>(
    case: &Case,
    said: &Said<'a>,
    sort: Sort,
    body: &'a ClosedFormula,
    place: u64,
) -> Option<Fact<'a>>
    requires room { length said.now.env.items < MAX_VARIABLES }
    requires closed { IsClosed (with_sort (scope_of said.now.env.items) sort) (plain_closed body.now) }
    requires range { AreInRange case.now said.now.env.items }
    ensures is { option_map plain_fact result
        ≡ said_at case.now said.now.plus sort (plain_closed body.now) (meanings said.now.env.items) (Some place) }
    ensures proper { IfSome result (IsProper case.now) }
    ensures small { IfSome result (λ f. place < 256) }
{
    let value = value_at(case, sort, place)?;
    Some(Fact::Said(Said {
        plus: said.plus,
        formula: body,
        env: with_value(&said.env, value),
        start: 0,
    }))
}
