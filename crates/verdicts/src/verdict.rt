ghost use Rattle.std.specs.Prelude.{◌≡◌, IfOk};
ghost use Rattle.pc_common.specs.Case.{Case as PlainCase};
ghost use Rattle.pc_syntax.specs.Written.{WrittenModel};
ghost use Rattle.pc_front.specs.Front.{IsFrontOf};
ghost use Rattle.cert_check.specs.Verdicts.{plain_verdict};
ghost use Rattle.verdicts.specs.Verdicts.{kind_of_found, status_of, IsVerdict};

use cert_check::Verdict;
use pc_common::{Memory, Status};
use pc_ground::{Front, Version};
use search_trait::{search_front, shorten_found};
use solver::Answer as Found;
use std::alloc::Global;

/// What is found of a model and a test: their front, and a graph that shows the outcome or a refutation.
pub struct FoundVerdict {
    pub front: Front,
    /// That of the refutation, where there is one.
    pub version: Version,
    pub found: Found,
}

// By hand: docs/DECISIONS.md, "Drops are written by hand".
impl Drop for FoundVerdict {
    fn drop(self) {
        let FoundVerdict {
            front: _,
            version: _,
            found: _,
        } = self;
    }
}

/// What the search finds of a front: a verdict on each model and case that it is the front of.
pub fn verdict_on(alloc: Global, front: Front, version: Version) -> Result<FoundVerdict, Memory>
    ensures front { IfOk result (λ v. v.front ≡ front) }
    ensures version { IfOk result (λ v. v.version ≡ version) }
    ensures verdict { IfOk result (λ v. (m : WrittenModel) (c : PlainCase) → IsFrontOf m c front → IsVerdict m c v) }
{
    let found = search_front(alloc, &front, version)?;
    Ok(FoundVerdict {
        front,
        version,
        found,
    })
}

/// The same, where a refutation leaves out the splits that it does not need.
pub fn short_verdict_on(
    alloc: Global,
    front: Front,
    version: Version,
) -> Result<FoundVerdict, Memory>
    ensures front { IfOk result (λ v. v.front ≡ front) }
    ensures version { IfOk result (λ v. v.version ≡ version) }
    ensures verdict { IfOk result (λ v. (m : WrittenModel) (c : PlainCase) → IsFrontOf m c front → IsVerdict m c v) }
{
    let found = search_front(alloc, &front, version)?;
    let short = shorten_found(alloc, &front, version, found)?;
    Ok(FoundVerdict {
        front,
        version,
        found: short,
    })
}

/// The status of a verdict.
pub fn verdict_status(verdict: &FoundVerdict) -> Status
    ensures { result ≡ status_of verdict.now.found }
{
    match verdict.found {
        Found::Observable(_) => Status::Observable,
        Found::Unobservable(_) => Status::Unobservable,
    }
}

/// Which verdict was found.
pub fn verdict_kind(found: &Found) -> Verdict
    ensures { plain_verdict result ≡ kind_of_found found.now }
{
    match found {
        Found::Observable(_) => Verdict::Observable,
        Found::Unobservable(_) => Verdict::Unobservable,
    }
}
