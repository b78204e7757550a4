ghost use Rattle.std.specs.Prelude.{◌≡◌, IfOk};

use pc_common::Memory;
use std::alloc::Global;

/// Two values, each in a box of its own.
pub(crate) fn boxes<T>(alloc: Global, left: T, right: T) -> Result<(Box<T>, Box<T>), Memory>
where
    T: Drop,
    ensures left { IfOk result (λ both. both.0.value ≡ left) }
    ensures right { IfOk result (λ both. both.1.value ≡ right) }
{
    let left = Box::new(alloc, left)?;
    Ok((left, Box::new(alloc, right)?))
}
