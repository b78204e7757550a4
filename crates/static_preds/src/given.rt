ghost use Rattle.std.specs.Prelude.{◌≡◌, ◌<◌, Some, length, slice_get};
ghost use Rattle.pc_case.specs.Plain.{micro_op};
ghost use Rattle.pc_syntax.specs.declared.pred.Takes.TheVariants.{Op as takes_op, Core as takes_core, Plain as takes_plain};
ghost use Rattle.pc_syntax.specs.Arguments.{place_in, core_in, plain_in, op_in};
ghost use Rattle.pc_syntax.specs.Predicates.{takes_of};
ghost use Rattle.static_preds.specs.Given.{IsGiven};
ghost use Rattle.static_preds.specs.Values.{values_of};

use super::slots::{core_in_slot, op_in_slot};
use pc_case::{Case, Op};
use pc_syntax::{ClosedArg, Env, Pred};

/// The arguments of a predicate in a case, each at its place, from 0.
#[derive(Clone, Copy)]
pub(crate) struct Given<'a> {
    pub(crate) case: &'a Case,
    pub(crate) pred: Pred,
    pub(crate) args: &'a [ClosedArg],
    /// What the slots stand for.
    pub(crate) env: &'a Env,
}

impl<'a> Given<'a> {
    /// How many there are: as many as the predicate takes.
    pub(crate) fn len(&self) -> usize
        requires { IsGiven self.now }
        ensures { result ≡ length (takes_of self.now.pred) }
    {
        self.args.len()
    }

    /// The micro-op at place `k`, by its own place in test order.
    pub(crate) fn place(&self, k: usize) -> usize
        requires given { IsGiven self.now }
        requires taken { slice_get (takes_of self.now.pred) k ≡ Some takes_op }
        ensures value { place_in (values_of self.now.env.now.items self.now.args.now) k ≡ Some result }
        ensures below { result < length self.now.case.now.ops }
    {
        match &self.args[k] {
            ClosedArg::Slot(slot) => op_in_slot(self.env, *slot) as usize,
            ClosedArg::Core(_) | ClosedArg::Plain(_) => unreachable!(),
        }
    }

    /// The core at place `k`.
    pub(crate) fn core(&self, k: usize) -> u8
        requires given { IsGiven self.now }
        requires taken { slice_get (takes_of self.now.pred) k ≡ Some takes_core }
        ensures { core_in (values_of self.now.env.now.items self.now.args.now) k ≡ Some result }
    {
        core_in_slot(self.env, &self.args[k])
    }

    /// The plain name at place `k`.
    pub(crate) fn plain(&self, k: usize) -> &'a [u8]
        requires given { IsGiven self.now }
        requires taken { slice_get (takes_of self.now.pred) k ≡ Some takes_plain }
        ensures { plain_in (values_of self.now.env.now.items self.now.args.now) k ≡ Some result.now }
    {
        match &self.args[k] {
            ClosedArg::Plain(name) => name.as_slice(),
            ClosedArg::Slot(_) | ClosedArg::Core(_) => unreachable!(),
        }
    }

    /// The micro-op at place `k`.
    pub(crate) fn op(&self, k: usize) -> &'a Op
        requires given { IsGiven self.now }
        requires taken { slice_get (takes_of self.now.pred) k ≡ Some takes_op }
        ensures { op_in self.now.case.now (values_of self.now.env.now.items self.now.args.now) k
            ≡ Some (micro_op result.now) }
    {
        self.case.op(self.place(k))
    }
}
