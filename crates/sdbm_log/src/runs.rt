// The law about lists of runs, as contracts of functions that do nothing.
ghost use Rattle.std.specs.Prelude.{◌≡◌, ◌<◌, ℕ, List, length};
ghost use Rattle.sdbm_saves.specs.Acts.{Act};
ghost use Rattle.sdbm_saves.specs.Redo.{files, IsPlan, Knows};
ghost use Rattle.sdbm_log.specs.Log.{CanRecover, IsReady};
ghost use Rattle.sdbm_log.specs.Protocol.{close_acts};
ghost use Rattle.sdbm_log.specs.Saving.{AreSaveCalls, AreOpenCalls, AreRecoverCalls};
ghost use Rattle.sdbm_log.specs.Steps.{IsSave, IsOpening, IsRecovering, IsClosing};
ghost use Rattle.sdbm_log.specs.declared.log.Log.{Log};
ghost use Rattle.sdbm_saves.specs.Disk.{Image};
ghost use Rattle.sdbm_log.specs.LogRuns.{LogRun, Found, Mean, AreMade, LeaveFiles};

use std::marker::Brand;

/// The images that a crash may leave after n runs of a list; n = 0 is before the first run. No code can know these images, so the law is
/// proved for all sets of images.
pub trait Crashes {
    ghost may_leave: { ℕ → Image → Type 0 };
}

/// Lets the proof of a call of `all_runs` choose the images.
impl Crashes for Brand {
    ghost may_leave = { λ n c. c ≡ c };
}

/// States the law of a log in its contract. Does nothing when called.
///
/// The runs use the files of one database, one after the other. Each run may use a different disk and a different process. A run may be
/// interrupted at any time, by a kill, by a failed call or by a power failure, even while it recovers the files. The power may also fail
/// between two runs. The law holds if the files before the first run can be recovered, and each run satisfies the contracts of this crate
/// (`IsRun`).
///
/// Every image that is read after a run, and every image that a crash may leave then, can be recovered. After a save that returned, the
/// image represents the saved files. After an interrupted save, it represents the saved files or the files that the run read. After a run
/// that saves nothing, it represents the files that the run read or, if the run was interrupted, files that were possible before the run.
/// Several saves of one process are several runs.
pub fn all_runs<C: Crashes>()
    ensures { (runs : List LogRun) (seen : Image) (was : List (List ℕ × List ℕ)) → Mean was (Found seen (C.may_leave 0)) → AreMade runs seen C.may_leave → LeaveFiles runs seen C.may_leave was }
{}

/// States the promises of this crate's lists of calls in its contract. Does nothing when called. The promises hold for every program that
/// makes the calls of a list on files that meet the requirements of the list, and for all images that a crash might have left of these
/// files before.
pub fn all_lists<C: Crashes>()
    ensures saves { (log next : Log) (plan : List ℕ) (commit apply : List Act) (seen : Image) (n : ℕ) → IsPlan plan → length plan < 4000000000 → AreSaveCalls log next plan commit apply
        → IsReady log.end log.room log.count seen (C.may_leave n) → Knows plan (files seen) → IsSave plan commit apply next.end next.room next.count seen (Found seen (C.may_leave n)) }
    ensures opens { (image : Image) (room : ℕ) (acts : List Act) (n : ℕ) → CanRecover image → AreOpenCalls image room acts → IsOpening acts 0 room 0 image (Found image (C.may_leave n)) }
    ensures recovers { (image : Image) (acts : List Act) (n : ℕ) → CanRecover image → AreRecoverCalls image acts → IsRecovering acts image (Found image (C.may_leave n)) }
    ensures closes { (log : Log) (seen : Image) (n : ℕ) → IsReady log.end log.room log.count seen (C.may_leave n) → IsClosing close_acts seen (Found seen (C.may_leave n)) }
{}
