ghost use Rattle.std.specs.Prelude.{◌≡◌, ◌<◌, length, IfOk};
ghost use Rattle.pc_common.specs.World.{Node, World};
ghost use Rattle.pc_common.specs.Generated.{IsGenerated};
ghost use Rattle.pc_syntax.specs.declared.limits.TheConstants.{MAX_VARIABLES};
ghost use Rattle.pc_syntax.specs.Closed.{plain_closed, closed_forall, closed_exists, closed_nodes, closed_edges, closed_bind, closed_true, closed_satisfies};
ghost use Rattle.pc_syntax.specs.IsClosed.{IsClosed, FitNodes, FitEdges, with_sort};
ghost use Rattle.pc_ground.specs.Stages.{plain_axioms};
ghost use Rattle.static_preds.specs.Slots.{AreInRange};
ghost use Rattle.static_preds.specs.Values.{meanings, scope_of};

use super::order::Order;
use pc_case::Case;
use pc_common::Memory;
use pc_syntax::{Closed, ClosedArgs, ClosedEdge, ClosedFormula, ClosedNode, Env, Sort};
use static_preds::{bind_next, copy_of, holds, node_key, range_len, value_in_range, with_values};

/// Whether each axiom is true. None after one that is false is walked. The one error is that memory was refused.
pub(crate) fn are_true(
    case: &Case,
    order: &mut Order<'_>,
    axioms: &[Closed],
) -> Result<bool, Memory>
    ensures same { order.new ≡ order.old }
    ensures truth { IfOk result (λ yes. (w : World Node) → IsGenerated order.old.nodes order.old.edges w
        → yes ≡ closed_satisfies (plain_axioms axioms.now) case.now w) }
{
    let env = Env::new();
    for axiom in axioms {
        if !is_true(case, order, &env, &axiom.body)? {
            return Ok(false);
        }
    }
    Ok(true)
}

/// Whether a formula is true, where its slots stand for what `env` says. What the left side decides is not
/// walked.
#[cycle(walk)]
fn is_true(
    case: &Case,
    order: &mut Order<'_>,
    env: &Env,
    formula: &ClosedFormula,
) -> Result<bool, Memory>
    requires closed { IsClosed (scope_of env.now.items) (plain_closed formula.now) }
    requires range { AreInRange case.now env.now.items }
    ensures same { order.new ≡ order.old }
    ensures truth { IfOk result (λ yes. (w : World Node) → IsGenerated order.old.nodes order.old.edges w
        → yes ≡ closed_true case.now w (meanings env.now.items) (plain_closed formula.now)) }
{
    match formula {
        ClosedFormula::Not(body) => Ok(!is_true(case, order, env, body)?),
        ClosedFormula::And(left, right) => {
            if is_true(case, order, env, left)? {
                is_true(case, order, env, right)
            } else {
                Ok(false)
            }
        }
        ClosedFormula::Or(left, right) => {
            if is_true(case, order, env, left)? {
                Ok(true)
            } else {
                is_true(case, order, env, right)
            }
        }
        ClosedFormula::Implies(left, right) => {
            if is_true(case, order, env, left)? {
                is_true(case, order, env, right)
            } else {
                Ok(true)
            }
        }
        ClosedFormula::Forall { sort, body } => is_true_for_all(case, order, env, *sort, body),
        ClosedFormula::Exists { sort, body } => is_true_for_some(case, order, env, *sort, body),
        ClosedFormula::Static { pred, args } => Ok(holds(case, *pred, args, env)),
        ClosedFormula::Nodes(nodes) => Ok(has_nodes(case, order, env, nodes.as_slice())),
        ClosedFormula::Edges(edges) => has_edges(case, order, env, edges.as_slice()),
        ClosedFormula::Bind { args, body } => is_true_inside(case, order, env, args, body),
    }
}

/// Whether the body of a quantifier is true at each value of its range.
#[cycle(walk)]
fn is_true_for_all(
    case: &Case,
    order: &mut Order<'_>,
    env: &Env,
    sort: Sort,
    body: &ClosedFormula,
) -> Result<bool, Memory>
    requires room { length env.now.items < MAX_VARIABLES }
    requires closed { IsClosed (with_sort (scope_of env.now.items) sort) (plain_closed body.now) }
    requires range { AreInRange case.now env.now.items }
    ensures same { order.new ≡ order.old }
    ensures truth { IfOk result (λ yes. (w : World Node) → IsGenerated order.old.nodes order.old.edges w
        → yes ≡ closed_true case.now w (meanings env.now.items) (closed_forall sort (plain_closed body.now))) }
{
    let mut inside = copy_of(env);
    for k in 0..range_len(case, sort) {
        bind_next(env, &mut inside, value_in_range(sort, k));
        if !is_true(case, order, &inside, body)? {
            return Ok(false);
        }
    }
    Ok(true)
}

/// Whether the body of a quantifier is true at some value of its range.
#[cycle(walk)]
fn is_true_for_some(
    case: &Case,
    order: &mut Order<'_>,
    env: &Env,
    sort: Sort,
    body: &ClosedFormula,
) -> Result<bool, Memory>
    requires room { length env.now.items < MAX_VARIABLES }
    requires closed { IsClosed (with_sort (scope_of env.now.items) sort) (plain_closed body.now) }
    requires range { AreInRange case.now env.now.items }
    ensures same { order.new ≡ order.old }
    ensures truth { IfOk result (λ yes. (w : World Node) → IsGenerated order.old.nodes order.old.edges w
        → yes ≡ closed_true case.now w (meanings env.now.items) (closed_exists sort (plain_closed body.now))) }
{
    let mut inside = copy_of(env);
    for k in 0..range_len(case, sort) {
        bind_next(env, &mut inside, value_in_range(sort, k));
        if is_true(case, order, &inside, body)? {
            return Ok(true);
        }
    }
    Ok(false)
}

/// Whether the body of a binding is true.
#[cycle(walk)]
fn is_true_inside(
    case: &Case,
    order: &mut Order<'_>,
    env: &Env,
    args: &ClosedArgs,
    body: &ClosedFormula,
) -> Result<bool, Memory>
    requires closed { IsClosed (scope_of env.now.items) (closed_bind args.now (plain_closed body.now)) }
    requires range { AreInRange case.now env.now.items }
    ensures same { order.new ≡ order.old }
    ensures truth { IfOk result (λ yes. (w : World Node) → IsGenerated order.old.nodes order.old.edges w
        → yes ≡ closed_true case.now w (meanings env.now.items) (closed_bind args.now (plain_closed body.now))) }
{
    is_true(case, order, &with_values(env, args), body)
}

/// Whether each of the nodes is there.
fn has_nodes(case: &Case, order: &Order<'_>, env: &Env, nodes: &[ClosedNode]) -> bool
    requires fit { FitNodes (scope_of env.now.items) nodes.now }
    requires range { AreInRange case.now env.now.items }
    ensures { (w : World Node) → IsGenerated order.now.nodes order.now.edges w
        → result ≡ closed_true case.now w (meanings env.now.items) (closed_nodes nodes.now) }
{
    for node in nodes {
        if !order.has_node(node_key(case, env, node)) {
            return false;
        }
    }
    true
}

/// Whether the ends of each of the edges are in this order.
fn has_edges(
    case: &Case,
    order: &mut Order<'_>,
    env: &Env,
    edges: &[ClosedEdge],
) -> Result<bool, Memory>
    requires fit { FitEdges (scope_of env.now.items) edges.now }
    requires range { AreInRange case.now env.now.items }
    ensures same { order.new ≡ order.old }
    ensures truth { IfOk result (λ yes. (w : World Node) → IsGenerated order.old.nodes order.old.edges w
        → yes ≡ closed_true case.now w (meanings env.now.items) (closed_edges edges.now)) }
{
    for edge in edges {
        let from = node_key(case, env, &edge.from);
        let to = node_key(case, env, &edge.to);
        if !order.has_edge(from, to)? {
            return Ok(false);
        }
    }
    Ok(true)
}
