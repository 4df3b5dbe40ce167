// The steps of a save.
ghost use Rattle.std.specs.Prelude.{◌≡◌, ◌<◌, ◌≤◌, ◌+◌, ◌^◌, ◌++◌, ℕ, List, length, drop, IsTrue, IfOk, ◌↔◌};
ghost use Rattle.sdbm_saves.specs.Disk.{Image};
ghost use Rattle.sdbm_saves.specs.Acts.{Act, seen_after, LeftAfter};
ghost use Rattle.sdbm_saves.specs.Redo.{count_of, files, renewed_files, IsPlan, Knows};
ghost use Rattle.sdbm_log.specs.Log.{record_of, IsGrowing, IsReady};
ghost use Rattle.sdbm_log.specs.Saving.{CanTake, MakesRoom, IsApplied, AreSaveCalls};
ghost use Rattle.sdbm_log.specs.Steps.{acts_of, with_head, IsSave};
ghost use Rattle.sdbm_log.specs.LogRuns.{saves, keeps, Found, IsRun};

use crate::log::{HEADER, Log};
use crate::records::push_record;
use crate::runs::Crashes;
use crate::steps::{
    HEAD, RECORD_AT, RECORD_HEAD, Step, push_apply, push_clear, push_close, push_commit, push_start,
};
use sdbm_saves::number;
use std::alloc::{AllocError, Global};

// The plans of a log have fewer changes than this in total.
const CHANGE_LIMIT: usize = 1 << 32;

// If a log is replaced by a longer log, the new room is a multiple of this number of bytes.
const PIECE: usize = 1 << 20;

/// The steps of a save.
#[derive(Drop)]
pub struct SaveSteps {
    /// The bytes that both lists write.
    pub bytes: Vec<u8>,
    /// The steps that commit the save. If one of them fails, the save may be committed or not.
    pub commit: Vec<Step>,
    /// The steps that apply the plan to both data files. If one of them fails, the save is still committed.
    pub apply: Vec<Step>,
    /// The log after all steps.
    pub log: Log,
}

/// Returns the steps that save a plan. The steps write a record after the existing records and sync once, which commits the save. Then the
/// steps apply the plan to both data files without a sync. If the log has no room for the record, or if a file gets shorter, the log is
/// emptied first, or replaced if it is too short. If a file gets shorter, the log is emptied afterwards too. If a step fails, make no
/// further step, and open the files again.
///
/// # Errors
///
/// `AllocError` if allocation fails.
pub fn save_steps<C: Crashes>(alloc: Global, log: Log, plan: &[u8]) -> Result<SaveSteps, AllocError>
    requires plan { IsPlan plan.now }
    requires short { length plan.now < 3000000000 }
    requires near { log.end ≤ 4000000000 }

    // The bytes are a head of ten bytes, then the record of the plan.
    ensures buffer { IfOk result (λ save. save.bytes.items ≡ with_head (record_of plan.now)) }
    ensures calls { IfOk result (λ save. AreSaveCalls log save.log plan.now (acts_of save.bytes.items save.commit.items) (acts_of save.bytes.items save.apply.items)) }

    // The promises of these calls, for all images that a crash might have left before.
    ensures saves { IfOk result (λ save. (seen : Image) (n : ℕ) → IsReady log.end log.room log.count seen (C.may_leave n) → Knows plan.now (files seen)
        → IsSave plan.now (acts_of save.bytes.items save.commit.items) (acts_of save.bytes.items save.apply.items) save.log.end save.log.room save.log.count seen (Found seen (C.may_leave n))) }

    // The calls are one run of the law, and also two runs: the first saves, and the second does not change the saved files.
    ensures run { IfOk result (λ save. (seen : Image) (n : ℕ) → IsReady log.end log.room log.count seen (C.may_leave n) → Knows plan.now (files seen)
        → IsRun (saves (renewed_files plan.now seen)) (acts_of save.bytes.items save.commit.items ++ acts_of save.bytes.items save.apply.items) seen (C.may_leave n)) }
    ensures commit_run { IfOk result (λ save. (seen : Image) (n : ℕ) → IsReady log.end log.room log.count seen (C.may_leave n) → Knows plan.now (files seen)
        → IsRun (saves (renewed_files plan.now seen)) (acts_of save.bytes.items save.commit.items) seen (C.may_leave n)) }
    ensures apply_run { IfOk result (λ save. (seen : Image) (n : ℕ) → IsReady log.end log.room log.count seen (C.may_leave n) → Knows plan.now (files seen)
        → IsRun keeps (acts_of save.bytes.items save.apply.items) (seen_after (acts_of save.bytes.items save.commit.items) seen) (LeftAfter (acts_of save.bytes.items save.commit.items) seen (Found seen (C.may_leave n)))) }
{
    let mut bytes = Vec::from_slice(alloc, &HEAD)?;
    push_record(&mut bytes, plan)?;
    let mut commit = Vec::new(alloc);
    let mid = push_room(&mut commit, log, plan)?;
    push_commit(&mut commit, mid.end, RECORD_HEAD + plan.len())?;
    let mut apply = Vec::new(alloc);
    let log = push_rest(&mut apply, mid, plan)?;
    Ok(SaveSteps {
        bytes,
        commit,
        apply,
        log,
    })
}

// Adds the steps that make room in a log for the record of a plan. Returns the log after these steps.
fn push_room(commit: &mut Vec<Step>, log: Log, plan: &[u8]) -> Result<Log, AllocError>
    requires plan { IsPlan plan.now }
    requires short { length plan.now < 3000000000 }

    ensures { IfOk result (λ next. (making : List Act) × (((rest : List ℕ) → acts_of (with_head rest) commit.new.items ≡ acts_of (with_head rest) commit.old.items ++ making) × MakesRoom log next plan.now making)) }
{
    if has_room(log, plan) {
        return Ok(log);
    }
    push_close(commit)?;
    let len = RECORD_HEAD + plan.len();
    if len <= log.room {
        push_clear(commit, log.end)?;
        return Ok(Log {
            end: 0,
            room: log.room,
            count: 0,
        });
    }
    let room = len / PIECE * PIECE + PIECE;
    push_start(commit, HEADER + room)?;
    Ok(Log {
        end: 0,
        room,
        count: 0,
    })
}

/// Returns `true` if a log can take the record of a plan without being emptied.
pub fn has_room(log: Log, plan: &[u8]) -> bool
    requires plan { 28 ≤ length plan.now }
    requires short { length plan.now < 3000000000 }
    ensures { IsTrue result ↔ CanTake log plan.now }
{
    let len = RECORD_HEAD + plan.len();
    if !is_growing(plan) || len > log.room || log.end > log.room - len {
        return false;
    }
    log.count < CHANGE_LIMIT && log.count + number(plan, 24) < CHANGE_LIMIT
}

// Returns `true` if a plan shortens no file.
fn is_growing(plan: &[u8]) -> bool
    requires { 28 ≤ length plan.now }
    ensures { IsTrue result ↔ IsGrowing plan.now }
{
    number(plan, 16) <= number(plan, 8) && number(plan, 20) <= number(plan, 12)
}

// Adds the steps of a save after its commit. Returns the log after these steps. The buffer contains the record of the plan.
fn push_rest(apply: &mut Vec<Step>, log: Log, plan: &[u8]) -> Result<Log, AllocError>
    requires plan { IsPlan plan.now }
    requires short { length plan.now < 3000000000 }
    requires near { log.end ≤ 4000000000 }
    requires few { log.count < 2 ^ 32 }

    ensures { IfOk result (λ next. (acts : List Act) × (((bytes : List ℕ) → drop 18 bytes ≡ plan.now → acts_of bytes apply.new.items ≡ acts_of bytes apply.old.items ++ acts) × IsApplied log next plan.now acts)) }
{
    push_apply(apply, plan, RECORD_AT + RECORD_HEAD)?;
    let end = log.end + RECORD_HEAD + plan.len();
    if is_growing(plan) {
        return Ok(Log {
            end,
            room: log.room,
            count: log.count + number(plan, 24),
        });
    }
    push_close(apply)?;
    push_clear(apply, end)?;
    Ok(Log {
        end: 0,
        room: log.room,
        count: 0,
    })
}
