// The law of tails, as the contract of a function that does nothing.
ghost use Rattle.std.specs.Prelude.{◌≡◌, ◌⊎◌, ◌<◌, ◌≤◌, ◌+◌, ◌^◌, ℕ, suc, List, ◌++◌, length, true};
ghost use Rattle.sdbm_saves.specs.Disk.{Image};
ghost use Rattle.sdbm_saves.specs.Acts.{seen_after};
ghost use Rattle.sdbm_saves.specs.Redo.{count_of, files, IsPlan, Knows};
ghost use Rattle.sdbm_log.specs.Doing.{Does, Killed};
ghost use Rattle.sdbm_log.specs.Log.{is_shared, next_plan, number_of, record_of, Holds, IsGrowing, IsReady};
ghost use Rattle.sdbm_log.specs.Protocol.{apply_acts};
ghost use Rattle.sdbm_tail.specs.Tail.{share_acts, append_acts, sync_acts, renewed_both, HasTail, HoldsSome, IsTailPlan};

use sdbm_log::Crashes;

/// States the law of tails in its contract. Does nothing when called. The law holds for every program that makes these calls on files that
/// meet the requirements, and for all images that a crash might leave.
///
/// `made k` is the files after the first k unsynced saves. While saves are unsynced, the log that is read represents the files after all of
/// them, so a kill loses none; a kill during an append leaves the files with or without the save that is appended. A crash leaves a log that represents the files after the first few of them, in order. A sync makes all of them durable.
/// Then their joined plan may be applied to the data files, and the log is ready.
pub fn tail_law<C: Crashes>()
    ensures read { (made : ℕ → List ℕ × List ℕ) (synced unsynced end room count : ℕ) (seen : Image) (n : ℕ) → HasTail made synced unsynced end room count seen (C.may_leave n) → Holds (made unsynced) seen }
    ensures left { (made : ℕ → List ℕ × List ℕ) (synced unsynced end room count : ℕ) (seen : Image) (n : ℕ) → HasTail made synced unsynced end room count seen (C.may_leave n) → (c : Image) → C.may_leave n c → HoldsSome made unsynced c }
    ensures shares { (end room count : ℕ) (seen : Image) (n : ℕ) → IsReady end room count seen (C.may_leave n)
        → Does share_acts seen (C.may_leave n) (λ c. Holds (files seen) c) (λ s m. IsReady end room count s m × ((is_shared s.redo ≡ true) × (files s ≡ files seen))) }
    ensures begins { (made : ℕ → List ℕ × List ℕ) (end room count : ℕ) (seen : Image) (n : ℕ) → IsReady end room count seen (C.may_leave n) → is_shared seen.redo ≡ true → 1 ≤ number_of seen → made 0 ≡ files seen
        → HasTail made (number_of seen) 0 end room count seen (C.may_leave n) }
    ensures appends { (made : ℕ → List ℕ × List ℕ) (synced unsynced end room count : ℕ) (plan : List ℕ) (seen : Image) (n : ℕ) → HasTail made synced unsynced end room count seen (C.may_leave n)
        → IsPlan plan → length plan < 4000000000 → IsGrowing plan → end + (8 + length plan) ≤ room → count + count_of plan < 2 ^ 32 → Knows plan (made unsynced) → made (suc unsynced) ≡ renewed_both plan (made unsynced)
        → Does (append_acts end (record_of plan)) seen (C.may_leave n) (HoldsSome made (suc unsynced)) (HasTail made synced (suc unsynced) (end + length (record_of plan)) room (count + count_of plan)) }
    ensures kills { (made : ℕ → List ℕ × List ℕ) (synced unsynced end room count : ℕ) (plan : List ℕ) (seen : Image) (n : ℕ) → HasTail made synced unsynced end room count seen (C.may_leave n)
        → IsPlan plan → length plan < 4000000000 → IsGrowing plan → end + (8 + length plan) ≤ room → count + count_of plan < 2 ^ 32 → Knows plan (made unsynced) → made (suc unsynced) ≡ renewed_both plan (made unsynced)
        → (c : Image) → Killed (append_acts end (record_of plan)) seen c → Holds (made unsynced) c ⊎ Holds (made (suc unsynced)) c }
    ensures joins { (made : ℕ → List ℕ × List ℕ) (synced unsynced end room count k : ℕ) (plan q : List ℕ) (seen : Image) (n : ℕ) → HasTail made synced unsynced end room count seen (C.may_leave n)
        → IsPlan plan → length plan < 4000000000 → IsGrowing plan → end + (8 + length plan) ≤ room → count + count_of plan < 2 ^ 32 → Knows plan (made unsynced) → made (suc unsynced) ≡ renewed_both plan (made unsynced)
        → IsTailPlan k q (made unsynced) seen → IsTailPlan (suc k) (next_plan k q plan) (made (suc unsynced)) (seen_after (append_acts end (record_of plan)) seen) }
    ensures syncs { (made later : ℕ → List ℕ × List ℕ) (synced unsynced end room count : ℕ) (seen : Image) (n : ℕ) → HasTail made synced unsynced end room count seen (C.may_leave n) → later 0 ≡ made unsynced
        → Does sync_acts seen (C.may_leave n) (HoldsSome made unsynced) (HasTail later (synced + unsynced) 0 end room count) }
    ensures applies { (made : ℕ → List ℕ × List ℕ) (synced end room count k : ℕ) (q : List ℕ) (seen : Image) (n : ℕ) → HasTail made synced 0 end room count seen (C.may_leave n) → 1 ≤ k
        → IsTailPlan k q (made 0) seen → Does (apply_acts q) seen (C.may_leave n) (λ c. Holds (made 0) c) (λ s m. IsReady end room count s m × (files s ≡ made 0)) }
{}
