ghost use Rattle.std.specs.Prelude.{◌≡◌, ◌<◌, ◌≤◌, ◌+◌, ◌++◌, ◌∷◌, [], length, map, take, Some, slice_get};
ghost use Rattle.pc_common.specs.Case.{Case as PlainCase};
ghost use Rattle.pc_syntax.specs.declared.limits.TheConstants.{MAX_VARIABLES};
ghost use Rattle.pc_syntax.specs.declared.term.Sort.TheVariants.{Microop};
ghost use Rattle.pc_syntax.specs.Closed.{meaning_of, value_at, closed_value};
ghost use Rattle.pc_syntax.specs.declared.pred.Takes.TheVariants.{Core as takes_core};
ghost use Rattle.pc_syntax.specs.Truth.{op_of, core_of};
ghost use Rattle.pc_syntax.specs.IsClosed.{IsBound, FitsArg, HasValue, HaveValues, sort_of, with_sorts};
ghost use Rattle.static_preds.specs.Values.{meanings, sort_bound, scope_of};
ghost use Rattle.static_preds.specs.Slots.{AreInRange, IsInRange};

use pc_syntax::{Bound, ClosedArg, ClosedArgs, Env};

/// What a slot stands for.
fn value_in_slot(env: &Env, slot: u8) -> Bound
    requires { slot < length env.now.items }
    ensures { slice_get env.now.items slot ≡ Some result }
{
    env.as_slice()[slot as usize]
}

/// The micro-op that a slot stands for, by its place in test order.
pub fn op_in_slot(env: &Env, slot: u8) -> u8
    requires { IsBound (scope_of env.now.items) slot Microop }
    ensures value { op_of (Some (value_at (meanings env.now.items) slot)) ≡ Some result }
    ensures range { (c : PlainCase) → AreInRange c env.now.items → result < length c.ops }
{
    match value_in_slot(env, slot) {
        Bound::Op(place) => place,
        Bound::Core(_) => unreachable!(),
    }
}

/// The core that an argument stands for: 0 to 63.
pub fn core_in_slot(env: &Env, arg: &ClosedArg) -> u8
    requires { FitsArg (scope_of env.now.items) takes_core arg.now }
    ensures value { core_of (Some (closed_value (meanings env.now.items) arg.now)) ≡ Some result }
    ensures range { (c : PlainCase) → AreInRange c env.now.items → result < 64 }
{
    match arg {
        ClosedArg::Slot(slot) => match value_in_slot(env, *slot) {
            Bound::Core(core) => core,
            Bound::Op(_) => unreachable!(),
        },
        ClosedArg::Core(core) => *core,
        ClosedArg::Plain(_) => unreachable!(),
    }
}

/// What an argument that has a value stands for.
fn value_of(env: &Env, arg: &ClosedArg) -> Bound
    requires { HasValue (scope_of env.now.items) arg.now }
    ensures value { meaning_of result ≡ closed_value (meanings env.now.items) arg.now }
    ensures sort { sort_bound result ≡ sort_of (scope_of env.now.items) arg.now }
    ensures range { (c : PlainCase) → AreInRange c env.now.items → IsInRange c result }
{
    match arg {
        ClosedArg::Slot(slot) => value_in_slot(env, *slot),
        ClosedArg::Core(core) => Bound::Core(*core),
        ClosedArg::Plain(_) => unreachable!(),
    }
}

/// The same slots, in room of their own.
pub fn copy_of(env: &Env) -> Env
    ensures { result.items ≡ env.now.items }
{
    let mut inside = Env::new();
    if inside.try_extend_from_slice(env.as_slice()).is_err() {
        unreachable!()
    }
    inside
}

/// Binds a quantifier's variable to its next value: `inside` begins with the slots outside.
pub fn bind_next(env: &Env, inside: &mut Env, value: Bound)
    requires room { length env.now.items < MAX_VARIABLES }
    requires begins { take (length env.now.items) inside.old.items ≡ env.now.items }
    ensures items { inside.new.items ≡ env.now.items ++ value ∷ [] }
    ensures begins { take (length env.now.items) inside.new.items ≡ env.now.items }
{
    inside.truncate(env.len());
    inside.push(value);
}

/// The slots inside a binding: the values of the arguments take the next ones, in their order.
#[tactic(auto, using(crate::proofs::Walked::value_there, crate::proofs::SlotLaws::slot_more))]
pub fn with_values(env: &Env, args: &ClosedArgs) -> Env
    requires values { HaveValues (scope_of env.now.items) args.now }
    requires room { length env.now.items + length args.now ≤ MAX_VARIABLES }
    ensures meanings { meanings result.items ≡ meanings env.now.items
        ++ map (closed_value (meanings env.now.items)) args.now }
    ensures scope { scope_of result.items ≡ with_sorts (scope_of env.now.items) args.now }
    ensures range { (c : PlainCase) → AreInRange c env.now.items → AreInRange c result.items }
{
    let mut inside = copy_of(env);
    for k in 0..args.len() {
        inside.push(value_of(env, args.get(k)));
    }
    inside
}
