ghost use Rattle.std.specs.Prelude.{◌≡◌, ◌<◌, length, IfOk};
ghost use Rattle.pc_syntax.specs.declared.limits.TheConstants.{MAX_VARIABLES};
ghost use Rattle.pc_syntax.specs.Closed.{plain_closed, closed_bind};
ghost use Rattle.pc_syntax.specs.IsClosed.{IsClosed, with_sort};
ghost use Rattle.pc_ground.specs.PlainGround.{plain_ground, simplified};
ghost use Rattle.pc_ground.specs.Unfolded.{decided};
ghost use Rattle.static_preds.specs.Values.{scope_of};
ghost use Rattle.static_preds.specs.Slots.{AreInRange};
ghost use Rattle.grounder.specs.Members.{with_member};
ghost use Rattle.grounder.specs.GroundingOf.{grounding_of, grounding_over};

use super::atoms::{ground_edges, ground_nodes};
use super::operator::Operator;
use pc_case::Case;
use pc_common::Memory;
use pc_ground::Ground;
use pc_syntax::{ClosedArgs, ClosedFormula, Env, Sort};
use static_preds::{bind_next, copy_of, holds, range_len, value_in_range, with_values};
use std::alloc::Global;

/// Grounds a formula whose slots stand for what `env` says. What a constant on the left decides is not
/// walked.
#[cycle(walk)]
pub(crate) fn ground_formula(
    alloc: Global,
    case: &Case,
    env: &Env,
    formula: &ClosedFormula,
) -> Result<Ground, Memory>
    requires closed { IsClosed (scope_of env.now.items) (plain_closed formula.now) }
    requires range { AreInRange case.now env.now.items }
    ensures { IfOk result (λ g. plain_ground g ≡ grounding_of case.now env.now.items (plain_closed formula.now)) }
{
    match formula {
        ClosedFormula::Not(body) => {
            Ground::negation(alloc, ground_formula(alloc, case, env, body)?)
        }
        ClosedFormula::And(left, right) => {
            let left = ground_formula(alloc, case, env, left)?;
            ground_rest(alloc, case, env, Operator::And, left, right)
        }
        ClosedFormula::Or(left, right) => {
            let left = ground_formula(alloc, case, env, left)?;
            ground_rest(alloc, case, env, Operator::Or, left, right)
        }
        ClosedFormula::Implies(left, right) => {
            let left = Ground::negation(alloc, ground_formula(alloc, case, env, left)?)?;
            ground_rest(alloc, case, env, Operator::Or, left, right)
        }
        ClosedFormula::Forall { sort, body } => {
            ground_range(alloc, case, env, Operator::And, *sort, body)
        }
        ClosedFormula::Exists { sort, body } => {
            ground_range(alloc, case, env, Operator::Or, *sort, body)
        }
        ClosedFormula::Static { pred, args } => Ok(constant_of(holds(case, *pred, args, env))),
        ClosedFormula::Nodes(nodes) => ground_nodes(alloc, case, env, nodes),
        ClosedFormula::Edges(edges) => ground_edges(alloc, case, env, edges),
        ClosedFormula::Bind { args, body } => ground_binding(alloc, case, env, args, body),
    }
}

/// True or False.
fn constant_of(truth: bool) -> Ground
    ensures { plain_ground result ≡ simplified (decided truth) }
{
    if truth { Ground::True } else { Ground::False }
}

/// What stands on the left, joined with what stands on the right, which is not walked where the left
/// decides.
#[cycle(walk)]
fn ground_rest(
    alloc: Global,
    case: &Case,
    env: &Env,
    operator: Operator,
    left: Ground,
    right: &ClosedFormula,
) -> Result<Ground, Memory>
    requires closed { IsClosed (scope_of env.now.items) (plain_closed right.now) }
    requires range { AreInRange case.now env.now.items }
    ensures { IfOk result (λ g. plain_ground g
        ≡ with_member operator (plain_ground left) (grounding_of case.now env.now.items (plain_closed right.now))) }
{
    if operator.is_decided_by(&left) {
        return Ok(left);
    }
    let right = ground_formula(alloc, case, env, right)?;
    operator.join(alloc, left, right)
}

/// The members of a quantifier, in the order of its range, joined from the last one. No member after
/// one that decides is walked.
#[cycle(walk)]
fn ground_range(
    alloc: Global,
    case: &Case,
    env: &Env,
    operator: Operator,
    sort: Sort,
    body: &ClosedFormula,
) -> Result<Ground, Memory>
    requires room { length env.now.items < MAX_VARIABLES }
    requires closed { IsClosed (with_sort (scope_of env.now.items) sort) (plain_closed body.now) }
    requires range { AreInRange case.now env.now.items }
    ensures { IfOk result (λ g. plain_ground g
        ≡ grounding_over operator case.now env.now.items sort (plain_closed body.now)) }
{
    // copied once for the quantifier; each turn rewrites the last slot
    let mut inside = copy_of(env);
    let mut kept = Vec::new(alloc);
    for k in 0..range_len(case, sort) {
        bind_next(env, &mut inside, value_in_range(sort, k));
        let member = ground_formula(alloc, case, &inside, body)?;
        if operator.keep(&mut kept, member)? {
            return Ok(operator.decider());
        }
    }
    operator.join_all(alloc, kept)
}

/// The body of a binding.
#[cycle(walk)]
fn ground_binding(
    alloc: Global,
    case: &Case,
    env: &Env,
    args: &ClosedArgs,
    body: &ClosedFormula,
) -> Result<Ground, Memory>
    requires closed { IsClosed (scope_of env.now.items) (closed_bind args.now (plain_closed body.now)) }
    requires range { AreInRange case.now env.now.items }
    ensures { IfOk result (λ g. plain_ground g
        ≡ grounding_of case.now env.now.items (closed_bind args.now (plain_closed body.now))) }
{
    ground_formula(alloc, case, &with_values(env, args), body)
}
