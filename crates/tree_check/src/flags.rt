ghost use Rattle.std.specs.Prelude.{◌≡◌, IfOk, length};

use pc_common::Memory;
use refutation::{Cut, Refutation};
use std::alloc::Global;

/// For each of so many steps the end of the cut that begins there, of several the last one's, or 0.
fn ends_of(alloc: Global, count: usize, cuts: &[Cut]) -> Result<Vec<usize>, Memory>
    ensures { IfOk result (λ ends. length ends.items ≡ count) }
{
    let mut ends = vec![in alloc; 0; count]?;
    for cut in cuts {
        if cut.start < count {
            ends[cut.start] = cut.end;
        }
    }
    Ok(ends)
}

/// Whether each step stays where those are left out that were noted as not needed.
pub(crate) fn flags_of(alloc: Global, refutation: &Refutation) -> Result<Vec<bool>, Memory>
    ensures { IfOk result (λ stays. length stays.items ≡ length refutation.now) }
{
    let count = refutation.len();
    let ends = ends_of(alloc, count, refutation.cuts())?;
    let mut stays = vec![in alloc; true; count]?;
    let mut next = 0;
    for k in 0..count {
        next = next.max(ends[k]);
        stays[k] = k >= next;
    }
    Ok(stays)
}
