// Computes the data files that the three files represent, for a reader that may not write to the files.
ghost use Rattle.std.specs.Prelude.{◌≡◌, IfOk, IfErr, IfSome, IsNone};
ghost use Rattle.sdbm_saves.specs.Acts.{seen_after};
ghost use Rattle.sdbm_saves.specs.Disk.{Image};
ghost use Rattle.sdbm_saves.specs.Redo.{files};
ghost use Rattle.sdbm_log.specs.Doing.{CanDo};
ghost use Rattle.sdbm_log.specs.Log.{files_of, CanRecover};
ghost use Rattle.sdbm_log.specs.Saving.{image_in, Reads, IsRedoPlan, HasNoPlan};
ghost use Rattle.sdbm_log.specs.Steps.{acts_of};
ghost use Rattle.sdbm_log.specs.declared.records.LogFault.TheVariants.{Foreign, Damaged};

use crate::records::{LogFault, LogFiles, plan_of};
use crate::steps::{Step, push_apply};
use std::alloc::{AllocError, Global};

/// Steps that turn copies of the data files into the data files that the three files represent.
#[derive(Drop)]
pub struct ReadSteps {
    /// The bytes that the steps write.
    pub bytes: Vec<u8>,
    pub steps: Vec<Step>,
}

/// Returns the steps that turn copies of the data files, in memory, into the data files that the three files represent. There are no steps
/// if the redo file has no plan. The bytes of the data files are needed only if the commit byte of the redo file is 1.
///
/// # Errors
///
/// Those of `plan_of`.
pub fn read_steps(alloc: Global, found: LogFiles<'_>) -> Result<ReadSteps, LogFault>
    ensures reads { IfOk result (λ read. (image : Image) → Reads found.entry image
        → CanDo (acts_of read.bytes.items read.steps.items) image × (files (seen_after (acts_of read.bytes.items read.steps.items) image) ≡ files_of image)) }
    ensures can_recover { IfOk result (λ read. CanRecover (image_in found.entry)) }
    ensures foreign { IfErr result (λ fault. fault ≡ Foreign → CanRecover (image_in found.entry) → ⊥) }
    ensures damaged { IfErr result (λ fault. fault ≡ Damaged → CanRecover (image_in found.entry) → ⊥) }
{
    let plan = plan_of(alloc, found)?;
    Ok(steps_of(alloc, found, plan)?)
}

// Returns the steps that apply a plan, or no steps without a plan.
fn steps_of(
    alloc: Global,
    found: LogFiles<'_>,
    plan: Option<Vec<u8>>,
) -> Result<ReadSteps, AllocError>
    requires some { IfSome plan (λ plan. IsRedoPlan (image_in found) plan.items) }
    requires none { IsNone plan → HasNoPlan (image_in found) }
    requires can_recover { CanRecover (image_in found) }

    ensures { IfOk result (λ read. (image : Image) → Reads found.entry image
        → CanDo (acts_of read.bytes.items read.steps.items) image × (files (seen_after (acts_of read.bytes.items read.steps.items) image) ≡ files_of image)) }
{
    let mut steps = Vec::new(alloc);
    let Some(plan) = plan else {
        let bytes = Vec::new(alloc);
        return Ok(ReadSteps { bytes, steps });
    };
    push_apply(&mut steps, plan.as_slice(), 0)?;
    Ok(ReadSteps { bytes: plan, steps })
}
