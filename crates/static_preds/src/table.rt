ghost use Rattle.std.specs.Prelude.{◌≡◌, Bool, length};
ghost use Rattle.std.specs.Option.{option_zip, option_map};
ghost use Rattle.pc_common.specs.Case.{Case as PlainCase, Touch};
ghost use Rattle.pc_case.specs.Plain.{micro_op, touch_at};
ghost use Rattle.pc_syntax.specs.IsClosed.{FitArgs};
ghost use Rattle.pc_syntax.specs.Predicates.{takes_of, predicate_holds, row_of, of_touch, of_touches, is_before as is_before_of};
ghost use Rattle.static_preds.specs.Given.{IsGiven};
ghost use Rattle.static_preds.specs.Rows.{AsksOfOp, AsksOfTouch, AsksOfOps, AsksOfTouches, op_rule_holds, ops_rule_holds};
ghost use Rattle.static_preds.specs.Values.{values_of, scope_of, AreOpsBelow, touches_at};

use super::entry::{is_accessed, is_dirty, is_entry_of, maps_to, same_tag};
use super::given::Given;
use pc_case::{Access, Case, Memop, Op};
use pc_syntax::{ClosedArgs, Env, Pred};

/// Whether the predicate is true of its arguments, whose slots stand for what `env` says. Takes no
/// memory.
///
/// The arguments fit the predicate: as many as it takes, each of the kind that it takes, slots within
/// `env`, cores from 0 to 63. The micro-ops among them are places below `case.ops()`.
pub fn holds(case: &Case, pred: Pred, args: &ClosedArgs, env: &Env) -> bool
    requires fit { FitArgs (scope_of env.now.items) (takes_of pred) args.now }
    requires below { AreOpsBelow (length case.now.ops) (values_of env.now.items args.now) }
    ensures { result ≡ predicate_holds case.now pred (values_of env.now.items args.now) }
{
    let args = args.as_slice();
    let given = Given {
        case,
        pred,
        args,
        env,
    };
    holds_of_given(&given)
}

/// Whether the predicate is true of what it is given. Those of one micro-op or of two have their rows below.
fn holds_of_given(given: &Given) -> bool
    requires { IsGiven given.now }
    ensures { result ≡ predicate_holds given.now.case.now given.now.pred
        (values_of given.now.env.now.items given.now.args.now) }
{
    match given.pred {
        Pred::True => true,
        Pred::False => false,
        Pred::AccessType => given.op(1).types.has(given.plain(0)),
        Pred::OnCore => given.op(1).core == given.core(0),
        Pred::SameMicroop => given.place(0) == given.place(1),
        Pred::HasDependency => {
            given
                .case
                .depends(given.plain(0), given.place(1), given.place(2))
        }
        _ => match given.len() {
            1 => holds_of_op(given.case, given.pred, given.op(0)),
            _ => holds_of_ops(given.pred, given.op(0), given.op(1)),
        },
    }
}

/// Whether a predicate of one micro-op is true of it.
fn holds_of_op(case: &Case, pred: Pred, op: &Op) -> bool
    requires { AsksOfOp pred }
    ensures { result ≡ op_rule_holds case.now (row_of pred).rule (micro_op op.now) }
{
    match pred {
        Pred::IsAnyRead => op.access == Access::Read,
        Pred::IsAnyWrite => op.access == Access::Write,
        Pred::IsAnyFence => op.access == Access::Fence,
        _ => op
            .memop
            .is_some_and(|memop| holds_of_touch(case, pred, memop)),
    }
}

/// Whether a predicate of what one micro-op touches is true of this.
fn holds_of_touch(case: &Case, pred: Pred, touch: Memop) -> bool
    requires { AsksOfTouch pred }
    ensures { (test : PlainCase → Touch → Bool) → (row_of pred).rule ≡ of_touch test → result ≡ test case.now (touch_at touch) }
{
    match pred {
        Pred::DataFromInitialStateAtPA => touch.value == case.initial(touch.pa),
        Pred::DataFromFinalStateAtPA => case.final_of(touch.pa) == Some(touch.value),
        Pred::MarkedAccessed => is_accessed(touch.value),
        Pred::MarkedDirty => is_dirty(touch.value),
        _ => unreachable!(),
    }
}

/// Whether a predicate of two micro-ops is true of them.
fn holds_of_ops(pred: Pred, first: &Op, second: &Op) -> bool
    requires { AsksOfOps pred }
    ensures { result ≡ ops_rule_holds (row_of pred).rule (micro_op first.now) (micro_op second.now) }
{
    match pred {
        Pred::SameCore => first.core == second.core,
        Pred::SameThread => first.thread == second.thread,
        Pred::SameInstruction => first.id.g == second.id.g,
        Pred::SameIntra => first.id.n == second.id.n,
        Pred::ProgramOrder => is_before(first, second),
        _ => touches(first, second).is_some_and(|(a, b)| holds_of_touches(pred, a, b)),
    }
}

/// What both touch, None where one is a fence.
fn touches(first: &Op, second: &Op) -> Option<(Memop, Memop)>
    ensures { option_zip (micro_op first.now).touch (micro_op second.now).touch ≡ option_map touches_at result }
{
    first.memop.zip(second.memop)
}

/// Whether a predicate of what two micro-ops touch is true of these.
fn holds_of_touches(pred: Pred, a: Memop, b: Memop) -> bool
    requires { AsksOfTouches pred }
    ensures { (test : Touch → Touch → Bool) → (row_of pred).rule ≡ of_touches test → result ≡ test (touch_at a) (touch_at b) }
{
    match pred {
        Pred::SameVirtualAddress => a.va == b.va,
        Pred::SamePhysicalAddress => a.pa == b.pa,
        Pred::SameVirtualTag => a.va.tag == b.va.tag,
        Pred::SamePhysicalTag => same_tag(a.pa, b.pa),
        Pred::SameIndex => a.va.index == b.va.index,
        Pred::SameData => a.value == b.value,
        Pred::EntryOf => is_entry_of(a.pa, b.va.tag),
        Pred::MapsTagOf => maps_to(a.value, b.pa),
        _ => unreachable!(),
    }
}

/// Whether the first is before the second in program order: on one core, in one thread, of an earlier
/// instruction.
fn is_before(first: &Op, second: &Op) -> bool
    ensures { result ≡ is_before_of (micro_op first.now) (micro_op second.now) }
{
    first.core == second.core && first.thread == second.thread && first.id.g < second.id.g
}
