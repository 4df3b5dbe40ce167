//! Compares all calls handed in with the trail, in a single pass.
ghost use Rattle.std.specs.Prelude.{◌≡◌, true, IfSome, length};
ghost use Rattle.std.specs.List.{All};
ghost use Rattle.store_shared.specs.Closed.{Agrees, AreDistinct, AreFollowed, AreWhole, Covers, IsNext};

use crate::session::Calls;
use std::alloc::{AllocError, Allocator};
use store_cmd::KeptEntry;

/// Returns true if every entry is the next call of its session among the calls handed in, and no call is left over. Returns
/// false also if memory runs out. Uses memory for two numbers per session, and time linear in the entries.
#[tactic(auto, using(crate::proofs::OnePass::agree_all))]
pub(crate) fn all_agree<A: Allocator + Copy>(
    alloc: A,
    made: u64,
    entries: &[KeptEntry<A>],
    handed: &[Calls<A>],
) -> bool
    requires { AreDistinct handed.now }
    ensures agree { result ≡ true → All (Agrees entries.now) handed.now }
    ensures covers { result ≡ true → Covers entries.now handed.now }
{
    let Ok(places) = places_of(alloc, made, handed) else {
        return false;
    };
    let Some(counts) = follow(alloc, entries, handed, places.as_slice()) else {
        return false;
    };
    are_whole(handed, counts.as_slice())
}

// Maps each session's number to the index of its calls in the list, or to 0 if none were handed in.
fn places_of<A: Allocator>(
    alloc: A,
    made: u64,
    handed: &[Calls<A>],
) -> Result<Vec<usize, A>, AllocError> {
    let mut places = vec![in alloc; 0usize; made as usize]?;
    for (at, calls) in handed.iter().enumerate() {
        if let Some(place) = places.get_mut(calls.number() as usize) {
            *place = at;
        }
    }
    Ok(places)
}

// Counts each session's calls among the entries. Returns `None` if an entry is not the next call of its session. A wrong index
// in `places` is harmless, since the session's number is compared too.
fn follow<A: Allocator + Copy>(
    alloc: A,
    entries: &[KeptEntry<A>],
    handed: &[Calls<A>],
    places: &[usize],
) -> Option<Vec<usize, A>>
    requires { AreDistinct handed.now }
    ensures followed { IfSome result (λ counts. AreFollowed entries.now handed.now counts.items) }
    ensures covers { IfSome result (λ _. Covers entries.now handed.now) }
{
    let Ok(mut counts) = vec![in alloc; 0usize; handed.len()] else {
        return None;
    };
    for entry in entries {
        let at = *places.get(entry.session() as usize)?;
        if at >= handed.len() {
            return None;
        }
        let Some(next) = next_count(&handed[at], counts[at], entry) else {
            return None;
        };
        counts[at] = next;
    }
    Some(counts)
}

// Returns `count + 1` if the entry is the next call of the session after `count` calls.
fn next_count<A: Allocator>(calls: &Calls<A>, count: usize, entry: &KeptEntry<A>) -> Option<usize>
    ensures { IfSome result (IsNext calls.now count entry.now) }
{
    if entry.session() != calls.number() {
        return None;
    }
    let next = calls.entries().get(count)?;
    if !next.equals(entry) {
        return None;
    }
    Some(count + 1)
}

// Returns true if all calls were counted.
fn are_whole<A: Allocator>(handed: &[Calls<A>], counts: &[usize]) -> bool
    ensures { result ≡ true → AreWhole handed.now counts.now (length handed.now) }
{
    if counts.len() != handed.len() {
        return false;
    }
    for at in 0..handed.len() {
        if counts[at] != handed[at].entries().len() {
            return false;
        }
    }
    true
}
