ghost use Rattle.std.specs.Prelude.{◌≡◌, ◌<◌, ◌≤◌, ℕ, length, map, slice_get, IfOk, MatchOption};
ghost use Rattle.std.specs.Option.{option_map};
ghost use Rattle.pc_common.specs.Case.{Case as PlainCase, cores_of};
ghost use Rattle.pc_case.specs.Plain.{micro_op, dependency, stated_value, address_at, plain_value, expectation, case_of_parts};
ghost use Rattle.pc_case.specs.MicroOps.{AreMicroOps, IsNamed};
ghost use Rattle.pc_common.specs.Addresses.{stated_at, initial_at};
ghost use Rattle.pc_common.specs.Dependencies.{depends_by};
ghost use Rattle.pc_case.specs.Stated.{IsStatedOnce, AreWithin};

use super::address::Address;
use super::dependency::{Dependencies, DependencyTable};
use super::op::{Op, OpId};
use super::stated::{StatedValues, ValueTable};
use pc_common::{Listed, Memory, Value};
use std::alloc::Global;
use std::marker::Model;

/// Micro-ops in test order.
pub type Ops = Listed<Op>;

/// What a test file says of its outcome.
#[derive(Clone, Copy, PartialEq, Eq)]
pub enum Expect {
    Permitted,
    Forbidden,
    Unstated,
}

/// What a test file says.
pub struct Case {
    ops: Ops,
    /// One more than the greatest core, or 0 without micro-ops.
    cores: usize,
    dependencies: DependencyTable,
    initial: ValueTable,
    final_values: ValueTable,
    expect: Expect,
}

// By hand: docs/DECISIONS.md, "Drops are written by hand".
impl Drop for Case {
    fn drop(self) {
        let Case {
            ops: _,
            cores: _,
            dependencies: _,
            initial: _,
            final_values: _,
            expect: _,
        } = self;
    }
}

impl Model for Case {
    ghost Value = { PlainCase };

    ghost view = { λ c. record {
      ops = map micro_op c.ops;
      dependencies = c.dependencies;
      initial = c.initial;
      final = c.final_values;
      expectation = expectation c.expect;
    } };

    ghost invariant = { λ c. AreMicroOps (map micro_op c.ops) × (c.cores ≡ cores_of (map micro_op c.ops))
        × AreWithin (length c.ops) c.dependencies × IsStatedOnce c.initial × IsStatedOnce c.final_values };
}

fn copy_ops(alloc: Global, ops: &Ops) -> Result<Ops, Memory>
    ensures { IfOk result (λ c. c ≡ ops.now) }
{
    let mut copies = Listed::new(alloc);
    for op in ops.as_slice() {
        copies.push(op.copy(alloc)?)?;
    }
    Ok(copies)
}

/// One more than the greatest core of these micro-ops, or 0 where there are none.
fn core_count(ops: &Ops) -> usize
    requires { AreMicroOps (map micro_op ops.now) }
    ensures { result ≡ cores_of (map micro_op ops.now) }
{
    let mut cores = 0;
    for k in 0..ops.len() {
        let core = ops.get(ops.len() - 1 - k).core as usize;
        if cores <= core {
            cores = core + 1;
        }
    }
    cores
}

impl Case {
    /// The case of these micro-ops, dependencies, initial and final values, each in test order.
    /// The one error is that memory was refused.
    pub fn new(
        alloc: Global,
        ops: Ops,
        dependencies: Dependencies,
        initial: StatedValues,
        final_values: StatedValues,
        expect: Expect,
    ) -> Result<Case, Memory>
        requires kept { AreMicroOps (map micro_op ops) }
        requires within { AreWithin (length ops) (map dependency dependencies) }
        requires initial_once { IsStatedOnce (map stated_value initial) }
        requires final_once { IsStatedOnce (map stated_value final_values) }
        ensures { IfOk result (λ c. c ≡ case_of_parts ops dependencies initial final_values expect) }
    {
        let cores = core_count(&ops);
        Ok(Case {
            ops,
            cores,
            dependencies: DependencyTable::from_list(alloc, dependencies)?,
            initial: ValueTable::from_list(alloc, initial)?,
            final_values: ValueTable::from_list(alloc, final_values)?,
            expect,
        })
    }

    /// The same case once more. The one error is that memory was refused.
    pub fn copy(&self, alloc: Global) -> Result<Case, Memory>
        ensures { IfOk result (λ c. c ≡ self.now) }
    {
        let ops = copy_ops(alloc, &self.ops)?;
        let dependencies = self.dependencies.copy(alloc)?;
        let initial = self.initial.copy(alloc)?;
        let final_values = self.final_values.copy(alloc)?;
        Ok(Case {
            ops,
            cores: self.cores,
            dependencies,
            initial,
            final_values,
            expect: self.expect,
        })
    }

    /// How many micro-ops there are, at most 64. Takes no memory.
    pub fn ops(&self) -> usize
        ensures count { result ≡ length self.now.ops }
        ensures kept { AreMicroOps self.now.ops }
    {
        self.ops.len()
    }

    /// The micro-op at place `k` in test order, from 0. Takes no memory.
    pub fn op(&self, k: usize) -> &Op
        requires { k < length self.now.ops }
        ensures op { slice_get self.now.ops k ≡ Some (micro_op result.now) }
        ensures kept { AreMicroOps self.now.ops }
    {
        self.ops.get(k)
    }

    /// One more than the greatest core, or 0 without micro-ops; at most 64. Takes no memory.
    pub fn cores(&self) -> usize
        ensures count { result ≡ cores_of self.now.ops }
        ensures kept { AreMicroOps self.now.ops }
    {
        self.cores
    }

    pub fn expect(&self) -> Expect
        ensures { expectation result ≡ self.now.expectation }
    {
        self.expect
    }

    /// The value at this physical address at the start: where no line states one, 0 at a page, and at the
    /// entry of a tag that very tag, neither accessed nor dirty. One look-up; takes no memory.
    pub fn initial(&self, pa: Address) -> Value
        ensures value { plain_value result ≡ initial_at self.now (address_at pa) }
        ensures once { IsStatedOnce self.now.initial }
    {
        match self.initial.get(pa) {
            Some(value) => value,
            None => pa.default_value(),
        }
    }

    /// The value at this physical address at the end, None where no line states one. One look-up;
    /// takes no memory.
    pub fn final_of(&self, pa: Address) -> Option<Value>
        ensures value { option_map plain_value result ≡ stated_at self.now.final (address_at pa) }
        ensures once { IsStatedOnce self.now.final }
    {
        self.final_values.get(pa)
    }

    /// Whether a dependency of this kind goes from the micro-op at place `i` to that at place `j`,
    /// false where there is no such place. A look-up of the places, then of the kind, whose length comes first where
    /// it has more than 15 bytes, each only where the one before finds something; takes no memory.
    pub fn depends(&self, kind: &[u8], i: usize, j: usize) -> bool
        ensures value { result ≡ depends_by self.now.dependencies kind.now i j }
        ensures within { AreWithin (length self.now.ops) self.now.dependencies }
    {
        self.dependencies.has(kind, i, j)
    }

    /// The place of the micro-op of this name, None where there is none. A walk over the at most 64
    /// micro-ops; takes no memory.
    pub fn find(&self, id: OpId) -> Option<usize>
        ensures { MatchOption result
            ((k : ℕ) → IsNamed self.now.ops id.g id.n k → ⊥)
            (λ k. IsNamed self.now.ops id.g id.n k) }
    {
        for (k, op) in self.ops.as_slice().iter().enumerate() {
            if op.id == id {
                return Some(k);
            }
        }
        None
    }
}
