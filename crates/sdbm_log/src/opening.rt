// The steps that open, recover and close a log.
ghost use Rattle.std.specs.Prelude.{true, ◌≡◌, ◌≤◌, ◌<◌, ◌+◌, ◌^◌, ◌++◌, ◌==◌, if◌then◌else◌, ℕ, List, [], length, get_or, IsTrue, OnOk, IfOk, IfErr, IfSome, IsNone};
ghost use Rattle.sdbm_saves.specs.Disk.{Image};
ghost use Rattle.sdbm_saves.specs.Acts.{Act};
ghost use Rattle.sdbm_log.specs.Log.{is_signed, IsReady, CanRecover};
ghost use Rattle.sdbm_saves.specs.Redo.{IsPlan};
ghost use Rattle.sdbm_log.specs.Protocol.{apply_acts, close_acts};
ghost use Rattle.sdbm_log.specs.Saving.{image_in, Reads, IsRedoPlan, HasNoPlan, recover_acts, AreRecoverCalls, IsRestart, AreOpenCalls};
ghost use Rattle.sdbm_log.specs.Steps.{acts_of, with_head, IsOpening, IsRecovering, IsClosing};
ghost use Rattle.sdbm_log.specs.LogRuns.{keeps, Found, IsRun};
ghost use Rattle.sdbm_log.specs.declared.log.Log.{Log};
ghost use Rattle.sdbm_log.specs.declared.records.LogFault.TheVariants.{Foreign, Damaged};

use crate::log::{HEADER, Log};
use crate::reading::ReadSteps;
use crate::records::{LogFault, LogFiles, is_signed, plan_of, used_room};
use crate::runs::Crashes;
use crate::steps::{
    HEAD, RECORD_AT, Step, push_apply, push_clear, push_close, push_settle, push_start,
};
use sdbm_saves::byte_at;
use std::alloc::{AllocError, Global};

// A log with more bytes than this is not reused.
const MOST_BYTES: usize = 1 << 28;

/// The steps that open a log.
#[derive(Drop)]
pub struct OpenSteps {
    /// The bytes that the steps write.
    pub bytes: Vec<u8>,
    pub steps: Vec<Step>,
    /// The log after all steps.
    pub log: Log,
}

/// Returns the steps that open a log with at least `room` bytes after the header. The steps sync the files that were read, recover them if
/// the commit byte of the redo file is 1, and make the redo file an empty log. A log of suitable length is reused; any other redo file is
/// overwritten with zeros, so that the disk has room for the log. The bytes of the data files are needed only if the commit byte is 1. If a
/// step fails, make no further step, and open the files again.
///
/// # Errors
///
/// Those of `plan_of`.
pub fn open_steps<C: Crashes>(
    alloc: Global,
    files: LogFiles<'_>,
    room: usize,
) -> Result<OpenSteps, LogFault>
    requires small { room ≤ 1073741824 }

    ensures calls { IfOk result (λ opened. (image : Image) → Reads files.entry image → AreOpenCalls image opened.log.room (acts_of opened.bytes.items opened.steps.items)) }
    ensures log { IfOk result (λ opened. (opened.log.end ≡ 0) × ((opened.log.count ≡ 0) × (room ≤ opened.log.room))) }
    ensures can_recover { IfOk result (λ opened. (image : Image) → Reads files.entry image → CanRecover image) }

    // The promises of these calls, for all images that a crash might have left before.
    ensures opens { IfOk result (λ opened. (image : Image) (n : ℕ) → Reads files.entry image → IsOpening (acts_of opened.bytes.items opened.steps.items) opened.log.end opened.log.room opened.log.count image (Found image (C.may_leave n))) }
    ensures run { IfOk result (λ opened. (image : Image) (n : ℕ) → Reads files.entry image → IsRun keeps (acts_of opened.bytes.items opened.steps.items) image (C.may_leave n)) }

    ensures foreign { IfErr result (λ fault. fault ≡ Foreign → CanRecover (image_in files.entry) → ⊥) }
    ensures damaged { IfErr result (λ fault. fault ≡ Damaged → CanRecover (image_in files.entry) → ⊥) }
{
    let plan = plan_of(alloc, files)?;
    Ok(steps_for(alloc, files, plan, room)?)
}

// Returns the steps that open a log, given the plan that must be applied, if any.
fn steps_for(
    alloc: Global,
    files: LogFiles<'_>,
    plan: Option<Vec<u8>>,
    room: usize,
) -> Result<OpenSteps, AllocError>
    requires small { room ≤ 1073741824 }
    requires some { IfSome plan (λ plan. IsRedoPlan (image_in files) plan.items) }
    requires none { IsNone plan → HasNoPlan (image_in files) }
    requires can_recover { CanRecover (image_in files) }

    ensures calls { IfOk result (λ opened. AreOpenCalls (image_in files.entry) opened.log.room (acts_of opened.bytes.items opened.steps.items)) }
    ensures log { IfOk result (λ opened. (opened.log.end ≡ 0) × ((opened.log.count ≡ 0) × (room ≤ opened.log.room))) }
{
    let mut bytes = Vec::from_slice(alloc, &HEAD)?;
    let mut steps = Vec::new(alloc);
    push_settle(&mut steps)?;
    push_recover(&mut steps, &mut bytes, files, plan)?;
    let room = push_restart(&mut steps, files.redo, room)?;
    Ok(OpenSteps {
        bytes,
        steps,
        log: Log {
            end: 0,
            room,
            count: 0,
        },
    })
}

// Adds the steps that recover the files, and appends to the buffer the plan that these steps apply.
fn push_recover(
    steps: &mut Vec<Step>,
    bytes: &mut Vec<u8>,
    files: LogFiles<'_>,
    plan: Option<Vec<u8>>,
) -> Result<(), AllocError>
    requires head { bytes.old.items ≡ with_head [] }
    requires some { IfSome plan (λ plan. IsRedoPlan (image_in files) plan.items) }
    requires none { IsNone plan → HasNoPlan (image_in files) }
    requires can_recover { CanRecover (image_in files) }
    ensures { OnOk result ((rest : List ℕ) × ((bytes.new.items ≡ with_head rest) × (acts_of (with_head rest) steps.new.items ≡ acts_of (with_head rest) steps.old.items ++ recover_acts (image_in files.entry)))) }
{
    let Some(plan) = plan else {
        return push_mark(steps, files.redo);
    };
    push_redo(steps, plan.as_slice())?;
    bytes.extend_from_slice(plan.as_slice())?;
    Ok(())
}

// Adds the steps that apply a plan of the redo file, and clear the commit byte.
fn push_redo(steps: &mut Vec<Step>, plan: &[u8]) -> Result<(), AllocError>
    requires plan { IsPlan plan.now }
    requires short { length plan.now < 2 ^ 63 }
    ensures { OnOk result (acts_of (with_head plan.now) steps.new.items ≡ acts_of (with_head plan.now) steps.old.items ++ (apply_acts plan.now ++ close_acts)) }
{
    push_apply(steps, plan, RECORD_AT)?;
    push_close(steps)
}

// Adds the steps that clear the commit byte of a log without records, if this byte is 1.
fn push_mark(steps: &mut Vec<Step>, redo: &[u8]) -> Result<(), AllocError>
    ensures { OnOk result ((bytes : List ℕ) → acts_of bytes steps.new.items ≡ acts_of bytes steps.old.items ++ (if get_or redo.now 0 0 == 1 then close_acts else [])) }
{
    if byte_at(redo, 0) != 1 {
        return Ok(());
    }
    push_close(steps)
}

// Adds the steps that make the redo file an empty log, and returns the room of the log.
fn push_restart(steps: &mut Vec<Step>, redo: &[u8], room: usize) -> Result<usize, AllocError>
    requires small { room ≤ 1073741824 }
    ensures enough { IfOk result (λ is. room ≤ is) }
    ensures restarts { IfOk result (λ is. (last : List Act) × (((rest : List ℕ) → acts_of (with_head rest) steps.new.items ≡ acts_of (with_head rest) steps.old.items ++ last) × IsRestart redo.now is last)) }
{
    if !is_reusable(redo, room) {
        push_start(steps, HEADER + room)?;
        return Ok(room);
    }
    let used = used_room(redo);
    if used == 0 {
        return Ok(redo.len() - HEADER);
    }
    push_clear(steps, used)?;
    Ok(redo.len() - HEADER)
}

// Returns `true` if a redo file is a log that can be reused: a commit byte of 0 or 1, a signature, enough room, at most `MOST_BYTES` bytes.
fn is_reusable(redo: &[u8], room: usize) -> bool
    requires small { room ≤ 1073741824 }
    ensures { IsTrue result → (is_signed redo.now ≡ true) × ((get_or redo.now 0 0 ≤ 1) × ((4096 + room ≤ length redo.now) × (length redo.now ≤ 4000000000))) }
{
    if redo.len() < HEADER + room || redo.len() > MOST_BYTES {
        return false;
    }
    byte_at(redo, 0) <= 1 && is_signed(redo)
}

/// Returns the steps that recover the files after an interrupted save. The steps sync the files that were read, apply the plans of the redo
/// file to both data files, and clear the commit byte. Afterwards the other bytes of the redo file have no meaning.
///
/// # Errors
///
/// Those of `plan_of`.
pub fn recover_steps<C: Crashes>(alloc: Global, files: LogFiles<'_>) -> Result<ReadSteps, LogFault>
    ensures calls { IfOk result (λ made. (image : Image) → Reads files.entry image → AreRecoverCalls image (acts_of made.bytes.items made.steps.items)) }
    ensures can_recover { IfOk result (λ made. (image : Image) → Reads files.entry image → CanRecover image) }

    // The promises of these calls, for all images that a crash might have left before.
    ensures recovers { IfOk result (λ made. (image : Image) (n : ℕ) → Reads files.entry image → IsRecovering (acts_of made.bytes.items made.steps.items) image (Found image (C.may_leave n))) }
    ensures run { IfOk result (λ made. (image : Image) (n : ℕ) → Reads files.entry image → IsRun keeps (acts_of made.bytes.items made.steps.items) image (C.may_leave n)) }

    ensures foreign { IfErr result (λ fault. fault ≡ Foreign → CanRecover (image_in files.entry) → ⊥) }
    ensures damaged { IfErr result (λ fault. fault ≡ Damaged → CanRecover (image_in files.entry) → ⊥) }
{
    let plan = plan_of(alloc, files)?;
    Ok(recover_for(alloc, files, plan)?)
}

// Returns the steps that recover the files, given the plan that must be applied, if any.
fn recover_for(
    alloc: Global,
    files: LogFiles<'_>,
    plan: Option<Vec<u8>>,
) -> Result<ReadSteps, AllocError>
    requires some { IfSome plan (λ plan. IsRedoPlan (image_in files) plan.items) }
    requires none { IsNone plan → HasNoPlan (image_in files) }
    requires can_recover { CanRecover (image_in files) }

    ensures { IfOk result (λ made. AreRecoverCalls (image_in files.entry) (acts_of made.bytes.items made.steps.items)) }
{
    let mut bytes = Vec::from_slice(alloc, &HEAD)?;
    let mut steps = Vec::new(alloc);
    push_settle(&mut steps)?;
    push_recover(&mut steps, &mut bytes, files, plan)?;
    Ok(ReadSteps { bytes, steps })
}

/// Returns the steps that close a log: sync both data files, then clear the commit byte. The steps need no buffer.
///
/// # Errors
///
/// `AllocError` if allocation fails.
pub fn close_steps<C: Crashes>(alloc: Global) -> Result<Vec<Step>, AllocError>
    ensures calls { IfOk result (λ steps. (bytes : List ℕ) → acts_of bytes steps.items ≡ close_acts) }

    // The promises of these calls, for all images that a crash might have left before.
    ensures closes { IfOk result (λ steps. (log : Log) (seen : Image) (n : ℕ) → IsReady log.end log.room log.count seen (C.may_leave n) → IsClosing (acts_of [] steps.items) seen (Found seen (C.may_leave n))) }
    ensures run { IfOk result (λ steps. (log : Log) (seen : Image) (n : ℕ) → IsReady log.end log.room log.count seen (C.may_leave n) → IsRun keeps (acts_of [] steps.items) seen (C.may_leave n)) }
{
    let mut steps = Vec::new(alloc);
    push_close(&mut steps)?;
    Ok(steps)
}
