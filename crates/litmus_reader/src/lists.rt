ghost use Rattle.std.specs.Prelude.{◌≡◌, IfOk};
ghost use Rattle.litmus_reader.specs.Lists.{case_by, AreLists};

use pc_case::{Case, Dependencies, Expect, Ops, StatedValues};
use pc_common::Memory;
use std::alloc::Global;

/// What a test file says, as the lists that a case is made of, each in test order.
#[derive(Drop)]
pub struct CaseLists {
    pub ops: Ops,
    pub dependencies: Dependencies,
    pub initial: StatedValues,
    pub final_values: StatedValues,
    pub expect: Expect,
}

impl CaseLists {
    /// The case of these lists. The one error is that memory was refused.
    pub fn into_case(self, alloc: Global) -> Result<Case, Memory>
        requires { AreLists self }
        ensures { IfOk result (λ c. c ≡ case_by self) }
    {
        Case::new(
            alloc,
            self.ops,
            self.dependencies,
            self.initial,
            self.final_values,
            self.expect,
        )
    }
}
