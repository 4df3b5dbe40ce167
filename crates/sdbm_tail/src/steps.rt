// The steps of saves that share a sync.
ghost use Rattle.std.specs.Prelude.{◌≡◌, ◌⊎◌, ◌<◌, ◌≤◌, ◌+◌, ℕ, suc, List, ◌++◌, length, drop, IfOk, IfSome, IsNone, OnOk};
ghost use Rattle.sdbm_saves.specs.Disk.{Image};
ghost use Rattle.sdbm_saves.specs.Redo.{count_of, files, IsPlan, Knows};
ghost use Rattle.sdbm_log.specs.Doing.{Does};
ghost use Rattle.sdbm_log.specs.Log.{record_of};
ghost use Rattle.sdbm_log.specs.Protocol.{apply_acts};
ghost use Rattle.sdbm_log.specs.Saving.{CanTake};
ghost use Rattle.sdbm_log.specs.Steps.{acts_of, with_head};
ghost use Rattle.sdbm_tail.specs.Tail.{share_acts, append_acts, renewed_both, HasTail, HoldsSome};

use sdbm_log::{
    Crashes, HEAD, HEADER, Log, RECORD_AT, RECORD_HEAD, SHARED_AT, Step, has_room, push_apply,
    push_record,
};
use sdbm_saves::{DiskFile, number};
use std::alloc::{AllocError, Global};

/// The steps that append the record of a save.
#[derive(Drop)]
pub struct AppendSteps {
    /// The bytes that the steps write.
    pub bytes: Vec<u8>,
    pub steps: Vec<Step>,
    /// The log after the steps.
    pub log: Log,
}

/// Returns the steps that append the record of a plan to a shared log, without a sync. Returns `None` if the log cannot take the record: it
/// has no records or no room, the plan shortens a file, or there are too many changes.
///
/// # Errors
///
/// `AllocError` if allocation fails.
pub fn append_steps<C: Crashes>(
    alloc: Global,
    log: Log,
    plan: &[u8],
) -> Result<Option<AppendSteps>, AllocError>
    requires plan { IsPlan plan.now }
    requires short { length plan.now < 3000000000 }
    requires near { log.end ≤ 4000000000 }

    ensures buffer { IfOk result (λ made. IfSome made (λ save. save.bytes.items ≡ with_head (record_of plan.now))) }
    ensures calls { IfOk result (λ made. IfSome made (λ save. acts_of save.bytes.items save.steps.items ≡ append_acts log.end (record_of plan.now))) }
    ensures log { IfOk result (λ made. IfSome made (λ save. (save.log.end ≡ log.end + (8 + length plan.now)) × ((save.log.room ≡ log.room) × (save.log.count ≡ log.count + count_of plan.now)))) }
    ensures takes { IfOk result (λ made. IfSome made (λ save. (1 ≤ log.end) × CanTake log plan.now)) }
    ensures none { IfOk result (λ made. IsNone made → (log.end ≡ 0) ⊎ (CanTake log plan.now → ⊥)) }

    // The promise of these calls: the record is unsynced until the log is synced.
    ensures appends { IfOk result (λ made_steps. IfSome made_steps (λ save. (made : ℕ → List ℕ × List ℕ) (synced unsynced : ℕ) (seen : Image) (n : ℕ)
        → HasTail made synced unsynced log.end log.room log.count seen (C.may_leave n) → Knows plan.now (made unsynced) → made (suc unsynced) ≡ renewed_both plan.now (made unsynced)
        → Does (acts_of save.bytes.items save.steps.items) seen (C.may_leave n) (HoldsSome made (suc unsynced)) (HasTail made synced (suc unsynced) save.log.end save.log.room save.log.count))) }
{
    if log.end == 0 || !has_room(log, plan) {
        return Ok(None);
    }
    let mut bytes = Vec::from_slice(alloc, &HEAD)?;
    push_record(&mut bytes, plan)?;
    let len = RECORD_HEAD + plan.len();
    let mut steps = Vec::new(alloc);
    push_append(&mut steps, log.end, len)?;
    Ok(Some(AppendSteps {
        bytes,
        steps,
        log: Log {
            end: log.end + len,
            room: log.room,
            count: log.count + number(plan, 24),
        },
    }))
}

// Adds the step that appends the record in the buffer. The existing records end at `end`.
fn push_append(steps: &mut Vec<Step>, end: usize, len: usize) -> Result<(), AllocError>
    requires { end ≤ 4000000000 }
    ensures { OnOk result ((record_bytes : List ℕ) → length record_bytes ≡ len
        → acts_of (with_head record_bytes) steps.new.items ≡ acts_of (with_head record_bytes) steps.old.items ++ append_acts end record_bytes) }
{
    steps.extend_from_slice(&[Step::Write {
        file: DiskFile::Redo,
        at: HEADER + end,
        from: RECORD_AT,
        len,
    }])
}

/// Returns the steps that make a log shared. They write a byte of the head of a buffer of steps.
///
/// # Errors
///
/// `AllocError` if allocation fails.
pub fn share_steps(alloc: Global) -> Result<Vec<Step>, AllocError>
    ensures { IfOk result (λ steps. (rest : List ℕ) → acts_of (with_head rest) steps.items ≡ share_acts) }
{
    let mut steps = Vec::new(alloc);
    steps.push(Step::Write {
        file: DiskFile::Redo,
        at: SHARED_AT,
        from: 0,
        len: 1,
    })?;
    steps.push(Step::Sync {
        file: DiskFile::Redo,
    })?;
    Ok(steps)
}

/// Returns the steps that apply a plan, which begins at `from` in the buffer.
///
/// # Errors
///
/// `AllocError` if allocation fails.
pub fn apply_steps(alloc: Global, plan: &[u8], from: usize) -> Result<Vec<Step>, AllocError>
    requires plan { IsPlan plan.now }
    requires short { length plan.now < 3000000000 }
    requires near { from ≤ 4096 }
    ensures { IfOk result (λ steps. (bytes : List ℕ) → drop from bytes ≡ plan.now → acts_of bytes steps.items ≡ apply_acts plan.now) }
{
    let mut steps = Vec::new(alloc);
    push_apply(&mut steps, plan, from)?;
    Ok(steps)
}
