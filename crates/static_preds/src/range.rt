ghost use Rattle.std.specs.Prelude.{◌≡◌, ℕ, ◌<◌, length};
ghost use Rattle.pc_syntax.specs.Truth.{range_of};
ghost use Rattle.static_preds.specs.Slots.{IsInRange, bound_at};

use pc_case::Case;
use pc_syntax::{Bound, Sort};

/// How many values a quantifier ranges over: at most 64.
#[tactic(auto, using(crate::proofs::Ranges::op_count, crate::proofs::Ranges::core_count, crate::proofs::Ranges::few_cores))]
pub fn range_len(case: &Case, sort: Sort) -> u8
    ensures count { result ≡ length (range_of case.now sort) }
    ensures values { (k : ℕ) → k < result → IsInRange case.now (bound_at sort k) }
{
    match sort {
        Sort::Microop => case.ops() as u8,
        Sort::Core => case.cores() as u8,
    }
}

/// The `k`-th value of a range, from 0.
pub fn value_in_range(sort: Sort, k: u8) -> Bound
    ensures { result ≡ bound_at sort k }
{
    match sort {
        Sort::Microop => Bound::Op(k),
        Sort::Core => Bound::Core(k),
    }
}
