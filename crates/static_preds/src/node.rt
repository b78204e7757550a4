ghost use Rattle.std.specs.Prelude.{◌≡◌, ◌<◌, Some};
ghost use Rattle.pc_common.specs.Case.{Case as PlainCase, MicroOp};
ghost use Rattle.pc_syntax.specs.Closed.{closed_core, closed_node};
ghost use Rattle.pc_syntax.specs.IsClosed.{FitsCore, FitsNode};
ghost use Rattle.pc_ground.specs.Keys.{key_node};
ghost use Rattle.static_preds.specs.Slots.{AreInRange};
ghost use Rattle.static_preds.specs.Values.{meanings, scope_of};

use super::slots::{core_in_slot, op_in_slot};
use pc_case::Case;
use pc_ground::NodeKey;
use pc_syntax::{ClosedArg, ClosedNode, Env};

/// The core of a node whose term may name one, and whose micro-op has its own.
fn core_or_own(env: &Env, core: &Option<ClosedArg>, own: u8) -> u8
    requires { FitsCore (scope_of env.now.items) core.now }
    ensures value { (op : MicroOp) → op.core ≡ own → closed_core (meanings env.now.items) op core.now ≡ Some result }
    ensures range { (c : PlainCase) → AreInRange c env.now.items → own < 64 → result < 64 }
{
    match core {
        Some(arg) => core_in_slot(env, arg),
        None => own,
    }
}

/// The node that a term names: on the micro-op's own core where it names none.
#[tactic(auto, using(crate::proofs::Terms::node_named))]
pub fn node_key(case: &Case, env: &Env, node: &ClosedNode) -> NodeKey
    requires fits { FitsNode (scope_of env.now.items) node.now }
    requires range { AreInRange case.now env.now.items }
    ensures { closed_node case.now (meanings env.now.items) node.now ≡ Some (key_node result) }
{
    let op = op_in_slot(env, node.op);
    let own = case.op(op as usize).core;
    let core = core_or_own(env, &node.core, own);
    NodeKey {
        op,
        core,
        stage: node.stage,
    }
}
