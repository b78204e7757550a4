ghost use Rattle.std.specs.Prelude.{◌≡◌, option_copied};
ghost use Rattle.pc_syntax.specs.Written.{written_model};
ghost use Rattle.pc_syntax.specs.Stages.{stage_with_number, stage_with_name};
ghost use Rattle.pc_syntax.specs.StageFaults.{stage_fault, first_stage_fault};

use pc_common::{FaultKind, Place};
use pc_syntax::{MAX_STAGE, ModelFile, StageItem};

/// The first fault of a model's stages and its place. In a stage the number is judged, then the name.
///
/// Takes no memory. The numbers of the stages that are passed differ and are at most 63, so that it ends
/// at the 65th stage at the latest, and each stage is compared with at most 64.
pub fn stage_faults(model: &ModelFile) -> Option<(FaultKind, Place)>
    ensures { result ≡ first_stage_fault (written_model model.now) }
{
    let stages = model.stages.as_slice();
    for k in 0..stages.len() {
        let fault = fault_after(&stages[..k], &stages[k]);
        if fault.is_some() {
            return fault;
        }
    }
    None
}

/// The fault of a stage after the earlier ones.
fn fault_after(earlier: &[StageItem], stage: &StageItem) -> Option<(FaultKind, Place)>
    ensures { result ≡ stage_fault earlier.now stage.now }
{
    if stage.number > MAX_STAGE {
        let number = stage.number;
        return Some((FaultKind::StageNumber { number }, stage.number_at));
    }
    if let Some(first) = with_number(earlier, stage.number) {
        return Some(fault_again(first.number_at, stage.number_at));
    }
    let first = with_name(earlier, stage.name.name.as_slice())?;
    Some(fault_again(first.name.at, stage.name.at))
}

fn fault_again(first: Place, again: Place) -> (FaultKind, Place)
    ensures { result ≡ (FaultKind.StageAgain first again, again) }
{
    (FaultKind::StageAgain { first, again }, again)
}

/// The first stage of this number.
fn with_number(stages: &[StageItem], number: u64) -> Option<&StageItem>
    ensures { option_copied result ≡ stage_with_number stages.now number }
{
    for stage in stages {
        if stage.number == number {
            return Some(stage);
        }
    }
    None
}

/// The first stage of this name.
fn with_name<'a>(stages: &'a [StageItem], name: &[u8]) -> Option<&'a StageItem>
    ensures { option_copied result ≡ stage_with_name stages.now name.now }
{
    for stage in stages {
        if stage.name.name.as_slice() == name {
            return Some(stage);
        }
    }
    None
}
