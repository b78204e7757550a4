ghost use Rattle.std.specs.Prelude.{◌≡◌, ◌<◌, length};
ghost use Rattle.pc_syntax.specs.declared.limits.TheConstants.{MAX_VARIABLES};
ghost use Rattle.pc_syntax.specs.Closed.{plain_closed, closed_bind};
ghost use Rattle.pc_syntax.specs.IsClosed.{IsClosed, with_sort};
ghost use Rattle.pc_ground.specs.Unfolded.{decided};
ghost use Rattle.static_preds.specs.Slots.{AreInRange};
ghost use Rattle.static_preds.specs.Values.{meanings, scope_of};
ghost use Rattle.lifter.specs.Trees.{signed_tree, said_tree, joined_tree, joined_trees, bodies};
ghost use Rattle.lifter.specs.Kinds.{kind_of, kind_over};

use super::kind::{FactKind, decides, join_kinds, neutral};
use pc_case::Case;
use pc_syntax::{ClosedArgs, ClosedFormula, Env, Sort};
use static_preds::{bind_next, copy_of, holds, range_len, value_in_range, with_values};

/// Which constant And, or, where not `all`, Or over so many members is, of which none is a constant.
pub(crate) fn kind_of_count(all: bool, count: usize) -> FactKind
    ensures { result ≡ kind_over all count }
{
    if count == 0 {
        neutral(all)
    } else {
        FactKind::Open
    }
}

/// Which constant a truth value under a sign is.
fn kind_of_truth(plus: bool, truth: bool) -> FactKind
    ensures { result ≡ kind_of (signed_tree plus (decided truth)) }
{
    if plus {
        if truth {
            FactKind::True
        } else {
            FactKind::False
        }
    } else {
        if truth {
            FactKind::False
        } else {
            FactKind::True
        }
    }
}

/// Which constant a formula under a sign is, where its slots stand for what `env` says. What the left side decides is
/// not walked. Takes no memory.
#[cycle(walk)]
pub(crate) fn kind_of_formula(
    case: &Case,
    env: &Env,
    plus: bool,
    formula: &ClosedFormula,
) -> FactKind
    requires closed { IsClosed (scope_of env.now.items) (plain_closed formula.now) }
    requires range { AreInRange case.now env.now.items }
    ensures { result ≡ kind_of (said_tree case.now plus (plain_closed formula.now) (meanings env.now.items)) }
{
    match formula {
        ClosedFormula::Not(body) => kind_of_formula(case, env, !plus, body),
        ClosedFormula::And(left, right) => kind_of_two(case, env, plus, plus, left, plus, right),
        ClosedFormula::Or(left, right) => kind_of_two(case, env, !plus, plus, left, plus, right),
        ClosedFormula::Implies(left, right) => {
            kind_of_two(case, env, !plus, !plus, left, plus, right)
        }
        ClosedFormula::Forall { sort, body } => {
            kind_of_range(case, env, plus, plus, *sort, body, 0)
        }
        ClosedFormula::Exists { sort, body } => {
            kind_of_range(case, env, !plus, plus, *sort, body, 0)
        }
        ClosedFormula::Static { pred, args } => kind_of_truth(plus, holds(case, *pred, args, env)),
        ClosedFormula::Nodes(nodes) => kind_of_count(plus, nodes.len()),
        ClosedFormula::Edges(edges) => kind_of_count(plus, edges.len()),
        ClosedFormula::Bind { args, body } => kind_of_bound(case, env, plus, args, body),
    }
}

/// Which constant And, or, where not `all`, Or of two formulas is.
#[cycle(walk)]
fn kind_of_two(
    case: &Case,
    env: &Env,
    all: bool,
    left_plus: bool,
    left: &ClosedFormula,
    right_plus: bool,
    right: &ClosedFormula,
) -> FactKind
    requires left_closed { IsClosed (scope_of env.now.items) (plain_closed left.now) }
    requires right_closed { IsClosed (scope_of env.now.items) (plain_closed right.now) }
    requires range { AreInRange case.now env.now.items }
    ensures { result ≡ kind_of (joined_tree all
        (said_tree case.now left_plus (plain_closed left.now) (meanings env.now.items))
        (said_tree case.now right_plus (plain_closed right.now) (meanings env.now.items))) }
{
    let first = kind_of_formula(case, env, left_plus, left);
    if decides(all, first) {
        return first;
    }
    join_kinds(all, first, kind_of_formula(case, env, right_plus, right))
}

/// Which constant a quantifier's body is at all values of its range from a place on, or, where not `all`, at some.
/// Values after one that decides are not walked. Takes no memory.
#[cycle(walk)]
pub(crate) fn kind_of_range(
    case: &Case,
    env: &Env,
    all: bool,
    plus: bool,
    sort: Sort,
    body: &ClosedFormula,
    from: usize,
) -> FactKind
    requires room { length env.now.items < MAX_VARIABLES }
    requires closed { IsClosed (with_sort (scope_of env.now.items) sort) (plain_closed body.now) }
    requires range { AreInRange case.now env.now.items }
    ensures { result ≡ kind_of (joined_trees all
        (bodies case.now plus sort (plain_closed body.now) (meanings env.now.items) from)) }
{
    let mut inside = copy_of(env);
    let mut kind = neutral(all);
    for k in from..range_len(case, sort) as usize {
        bind_next(env, &mut inside, value_in_range(sort, k as u8));
        let member = kind_of_formula(case, &inside, plus, body);
        if decides(all, member) {
            return member;
        }
        kind = join_kinds(all, kind, member);
    }
    kind
}

/// Which constant the body of a binding is.
#[cycle(walk)]
fn kind_of_bound(
    case: &Case,
    env: &Env,
    plus: bool,
    args: &ClosedArgs,
    body: &ClosedFormula,
) -> FactKind
    requires closed { IsClosed (scope_of env.now.items) (closed_bind args.now (plain_closed body.now)) }
    requires range { AreInRange case.now env.now.items }
    ensures { result
        ≡ kind_of (said_tree case.now plus (closed_bind args.now (plain_closed body.now)) (meanings env.now.items)) }
{
    let inside = with_values(env, args);
    kind_of_formula(case, &inside, plus, body)
}
