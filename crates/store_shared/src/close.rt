//! Compares the calls handed in with the trail when a store is closed.
ghost use Rattle.std.specs.Prelude.{◌≡◌, ◌↔◌, IsTrue, IfNone, IfSome, Some};
ghost use Rattle.std.specs.List.{All, slice_get};
ghost use Rattle.store_shared.specs.Shared.{Opened};
ghost use Rattle.store_shared.specs.Closed.{is_among, Agrees, AreOwn, Covers, AreDistinct, IsFirstApart, IsFirstStrange, IsFirstMissing, IsFirstTorn, IsCloseFault, MayClose, IsStartedSo};

use crate::one_pass::all_agree;
use crate::session::Calls;
use desk_core::Desk;
use sdbm_addr::{Bytes, KeyBytes, PageSize};
use std::alloc::Allocator;
use store_cmd::KeptEntry;

/// The reasons why a store is not closed, in the order in which they are checked. One pass over the calls checks both
/// `Stranger` and `Double`.
#[derive(Clone, Copy, Debug, PartialEq, Eq)]
pub enum CloseFault {
    /// The store has no session with this number.
    Stranger(u64),
    /// The calls of this session were handed in twice.
    Double(u64),
    /// This session has answered calls, but they were not handed in.
    Missing(u64),
    /// The calls of this session differ from its calls in the trail.
    Torn(u64),
    /// The trail's opening, the hash kind or the page size is not the one with which the store was opened.
    Opening,
}

/// Returns the fault that prevents these calls from closing the store, if any. `made` is the number of the store's sessions.
pub(crate) fn close_fault<A: Allocator + Copy>(
    alloc: A,
    desk: &Desk<A>,
    made: u64,
    kind: KeyBytes,
    size: PageSize,
    opening: &[(Bytes<A>, Bytes<A>)],
    handed: &[Calls<A>],
) -> Option<CloseFault>
    ensures none { let opened : Opened = record { kind = kind; size = size; opening = opening.now } in IfNone result (MayClose desk.now opened handed.now) }
    ensures some { let opened : Opened = record { kind = kind; size = size; opening = opening.now } in IfSome result (IsCloseFault desk.now made opened handed.now) }
{
    let entries = desk.trail().entries.as_slice();
    if let Some(fault) = first_strange(handed, made) {
        return Some(fault);
    }
    if let Some(fault) = first_apart(alloc, made, entries, handed) {
        return Some(fault);
    }
    if !has_started_so(desk, kind, size, opening) {
        return Some(CloseFault::Opening);
    }
    None
}

// Returns the fault of the first session whose calls are missing or torn. A fast pass first compares all calls. If it fails, a
// slow comparison follows: it searches the list of calls for each entry, and all entries for each session.
fn first_apart<A: Allocator + Copy>(
    alloc: A,
    made: u64,
    entries: &[KeptEntry<A>],
    handed: &[Calls<A>],
) -> Option<CloseFault>
    requires { AreDistinct handed.now }
    ensures covers { IfNone result (Covers entries.now handed.now) }
    ensures agree { IfNone result (All (Agrees entries.now) handed.now) }
    ensures some { IfSome result (IsFirstApart entries.now handed.now) }
{
    if all_agree(alloc, made, entries, handed) {
        return None;
    }
    if let Some(session) = first_missing(entries, handed) {
        return Some(CloseFault::Missing(session));
    }
    match first_torn(entries, handed) {
        Some(session) => Some(CloseFault::Torn(session)),
        None => None,
    }
}

// Returns true if the calls of the session with this number were handed in.
fn is_among<A: Allocator>(number: u64, handed: &[Calls<A>]) -> bool
    ensures { result ≡ is_among number handed.now }
{
    handed.iter().any(|calls| number == calls.number())
}

// Returns the fault of the first number in the list that no session has or that is repeated.
#[tactic(auto, using(crate::proofs::CloseLemmas::Here))]
fn first_strange<A: Allocator>(handed: &[Calls<A>], made: u64) -> Option<CloseFault>
    ensures none { IfNone result (AreOwn made handed.now) }
    ensures some { IfSome result (IsFirstStrange made handed.now) }
{
    for at in 0..handed.len() {
        let number = handed[at].number();
        if number >= made {
            return Some(CloseFault::Stranger(number));
        }
        if is_among(number, &handed[..at]) {
            return Some(CloseFault::Double(number));
        }
    }
    None
}

// The session of the first entry whose session handed in no calls.
#[tactic(auto, using(crate::proofs::CloseLemmas::Here))]
fn first_missing<A: Allocator>(entries: &[KeptEntry<A>], handed: &[Calls<A>]) -> Option<u64>
    ensures none { IfNone result (Covers entries.now handed.now) }
    ensures some { IfSome result (IsFirstMissing entries.now handed.now) }
{
    for entry in entries {
        if !is_among(entry.session(), handed) {
            return Some(entry.session());
        }
    }
    None
}

// The number of the first session whose calls differ from its calls in the trail.
#[tactic(auto, using(crate::proofs::CloseLemmas::Here))]
fn first_torn<A: Allocator>(entries: &[KeptEntry<A>], handed: &[Calls<A>]) -> Option<u64>
    ensures none { IfNone result (All (Agrees entries.now) handed.now) }
    ensures some { IfSome result (IsFirstTorn entries.now handed.now) }
{
    for calls in handed {
        if !agrees(entries, calls) {
            return Some(calls.number());
        }
    }
    None
}

// Returns true if the calls equal the entries of their session.
fn agrees<A: Allocator>(entries: &[KeptEntry<A>], calls: &Calls<A>) -> bool
    ensures { IsTrue result ↔ Agrees entries.now calls.now }
{
    let number = calls.number();
    let made = calls.entries();
    let mut at = 0;
    for entry in entries {
        if entry.session() != number {
            continue;
        }
        if !is_at(made, at, entry) {
            return false;
        }
        at += 1;
    }
    at == made.len()
}

// Returns true if `made` has an equal entry at index `at`.
fn is_at<A: Allocator>(made: &[KeptEntry<A>], at: usize, entry: &KeptEntry<A>) -> bool
    ensures { IsTrue result ↔ (slice_get made.now at ≡ Some entry.now) }
{
    let Some(other) = made.get(at) else {
        return false;
    };
    other.equals(entry)
}

// Returns true if the desk has this hash kind and page size and its trail began with these pairs.
fn has_started_so<A: Allocator + Copy>(
    desk: &Desk<A>,
    kind: KeyBytes,
    size: PageSize,
    opening: &[(Bytes<A>, Bytes<A>)],
) -> bool
    ensures { let opened : Opened = record { kind = kind; size = size; opening = opening.now } in IsTrue result ↔ IsStartedSo desk.now opened }
{
    let image = desk.image();
    if image.key_bytes() != kind {
        return false;
    }
    if image.page_size() != size {
        return false;
    }
    are_same_pairs(desk.trail().opening.as_slice(), opening)
}

// Returns true if both lists have equal pairs in the same order.
fn are_same_pairs<A: Allocator>(
    one: &[(Bytes<A>, Bytes<A>)],
    other: &[(Bytes<A>, Bytes<A>)],
) -> bool
    ensures { IsTrue result ↔ (one.now ≡ other.now) }
{
    one == other
}
