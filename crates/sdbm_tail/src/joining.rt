// Joins the plans of a tail.
ghost use Rattle.std.specs.Prelude.{◌≡◌, ◌≤◌, ◌<◌, ◌+◌, ◌-◌, ◌↔◌, length, take, true, IfOk, IfErr, IsTrue};
ghost use Rattle.sdbm_saves.specs.Redo.{IsPlan};
ghost use Rattle.sdbm_log.specs.Log.{is_whole, size_at, first_plan, joined, next_plan, CanFollow};
ghost use Rattle.sdbm_tail.specs.Tail.{CanJoin, GrowsTo};
ghost use Rattle.sdbm_tail.specs.declared.joining.JoinFault.TheVariants.{ShortRoom, BadRecord};

use sdbm_log::{first_plan, has_plan, is_whole, join_heads};
use sdbm_saves::{number, write_in};

// The length of the head of a plan.
const HEAD: usize = 28;

// The joined plan of a log has fewer changes than this.
const CHANGE_LIMIT: usize = 1 << 32;

/// The reason why the plan of a record cannot be joined.
#[derive(Clone, Copy, Debug, PartialEq, Eq)]
pub enum JoinFault {
    /// The joined plan does not fit.
    ShortRoom,
    /// The bytes do not begin with a complete record of a plan, or its plan cannot follow: one of both plans shortens a file, or together they
    /// have too many changes.
    BadRecord,
}

/// The result of joining a plan.
#[derive(Clone, Copy, Debug, PartialEq, Eq)]
pub struct Joined {
    /// The length of the joined plan.
    pub len: usize,
    /// The length of the record.
    pub used: usize,
}

/// Joins the plan of the first record in `records` to the plan in the first `len` bytes of `room`. If `len` is 0, the result is the plan of
/// the record. The result is at the front of `room`.
///
/// # Errors
///
/// `ShortRoom` if the result is longer than `room`. `BadRecord` if `records` does not begin with a complete record of a plan, or if this plan
/// cannot follow the plan in `room`. Then `room` is unchanged.
pub fn join_next(room: &mut [u8], len: usize, records: &[u8]) -> Result<Joined, JoinFault>
    requires { len ≤ length room.old }
    ensures record { IfOk result (λ joined. (is_whole records.now ≡ true) × (joined.used ≡ 8 + size_at records.now)) }
    ensures plan { IfOk result (λ joined. IsPlan (first_plan records.now)) }
    ensures follows { IfOk result (λ joined. CanFollow len (take len room.old) (first_plan records.now)) }
    ensures joined { IfOk result (λ joined. take joined.len room.new ≡ next_plan len (take len room.old) (first_plan records.now)) }
    ensures inside { IfOk result (λ joined. joined.len ≤ length room.new) }
    ensures same_length { length room.new ≡ length room.old }
    ensures untouched { IfErr result (λ fault. room.new ≡ room.old) }

    // Each fault has its cause: a record that can be joined is refused only if the result is too long.
    ensures bad { IfErr result (λ fault. fault ≡ BadRecord → CanJoin len (take len room.old) records.now → ⊥) }
    ensures short { IfErr result (λ fault. fault ≡ ShortRoom → CanJoin len (take len room.old) records.now × (length room.old < length (next_plan len (take len room.old) (first_plan records.now)))) }
{
    if !is_whole(records) || !has_plan(records) {
        return Err(JoinFault::BadRecord);
    }
    let next = first_plan(records);
    let used = 8 + next.len();
    if len == 0 {
        if next.len() > room.len() {
            return Err(JoinFault::ShortRoom);
        }
        room[..next.len()].copy_from_slice(next);
        return Ok(Joined {
            len: next.len(),
            used,
        });
    }
    if len < HEAD {
        return Err(JoinFault::BadRecord);
    }
    if !can_follow(&room[..len], next) {
        return Err(JoinFault::BadRecord);
    }
    let more = next.len() - HEAD;
    if more > room.len() - len {
        return Err(JoinFault::ShortRoom);
    }
    extend(room, len, next);
    Ok(Joined {
        len: len + more,
        used,
    })
}

// Joins `next` to the plan in the first `len` bytes of `room`.
fn extend(room: &mut [u8], len: usize, next: &[u8])
    requires first { 28 ≤ len }
    requires next { 28 ≤ length next.now }
    requires fits { len + (length next.now - 28) ≤ length room.old }
    ensures joined { take (len + (length next.now - 28)) room.new ≡ joined (take len room.old) next.now }
    ensures same_length { length room.new ≡ length room.old }
{
    write_in(room, len, &next[HEAD..]);
    join_heads(&mut room[..len], next);
}

// Returns `true` if a plan may follow another plan: neither shortens a file, and together they have few enough changes.
fn can_follow(first: &[u8], next: &[u8]) -> bool
    requires first { 28 ≤ length first.now }
    requires next { 28 ≤ length next.now }
    ensures { IsTrue result ↔ GrowsTo first.now next.now }
{
    number(first, 16) <= number(first, 8)
        && number(first, 20) <= number(first, 12)
        && number(first, 8) <= number(next, 8)
        && number(first, 12) <= number(next, 12)
        && number(first, 24) + number(next, 24) < CHANGE_LIMIT
}
