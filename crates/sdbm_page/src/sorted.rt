//! Checks that the keys in the bytes of a page are distinct by sorting them.
ghost use Rattle.std.specs.Prelude.{◌≤◌, ◌↔◌, map, IsTrue, IsSorted};
ghost use Rattle.std.specs.Ordering.{nat_cmp};
ghost use Rattle.std.specs.Cmp.Lexicographic.{slice_cmp};
ghost use Rattle.sdbm_page.specs.Keys.{AreInside, AreApart, AreUnlike};

use crate::fields::key_in;

// One more than the greatest number of keys on a wide page.
const ROOM: usize = 2048;

/// Returns `true` if no two of the first `count` pairs have the same key. Equal keys are neighbors after sorting. The list of keys is on
/// the stack; nothing is allocated.
pub fn are_apart_sorted(bytes: &[u8], count: usize) -> bool
    requires inside { AreInside bytes.now count }
    requires few { count ≤ 2048 }
    ensures { IsTrue result ↔ AreApart bytes.now count }
{
    let none: &[u8] = &[];
    let mut room = [none; ROOM];
    for i in 0..count {
        room[i] = key_in(bytes, i);
    }
    let keys = &mut room[..count];
    keys.sort_unstable();
    neighbors_differ(keys)
}

// Returns `true` if no two neighbors in a sorted list are equal.
fn neighbors_differ(keys: &[&[u8]]) -> bool
    requires { IsSorted (λ a b. slice_cmp nat_cmp a.now b.now) keys.now }
    ensures { IsTrue result ↔ AreUnlike (map (λ k. k.now) keys.now) }
{
    for later in 1..keys.len() {
        if keys[later - 1] == keys[later] {
            return false;
        }
    }
    true
}
