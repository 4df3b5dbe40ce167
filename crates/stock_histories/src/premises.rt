//! Tests whether the premises of the laws hold in the trail of a store.
ghost use Rattle.std.specs.Prelude.{◌≡◌, ◌↔◌, ◌≤◌, IsTrue, length};
ghost use Rattle.std.specs.FinMap as map;
ghost use Rattle.sdbm_addr.specs.Pairs.{key_cmp};
ghost use Rattle.std.specs.Option.{option_map};
ghost use Rattle.bpf_helpers.specs.Runs.{AreBytes, record_limit};
ghost use Rattle.stock_histories.specs.Turns.{
  turn_in,
  turns_of,
  OnlyRuns,
  RunsAlone,
  HasWords,
  HaveWords,
  NeverFalls,
  IsRecord,
};

use bpf_helpers::RECORD_LIMIT;
use bpf_insn::Code;
use sdbm_addr::Bytes;
use std::alloc::Allocator;
use store_cmd::{Command, KeptEntry, Program, Reply, Trail};

/// Tests the premises of the laws on the trail of a closed store: only runs of this program change the key, the times of its
/// runs never fall, and the value at the start, if any, has at most 8,008 bytes (always so in files). Fetches, counts and
/// commands on other keys are allowed. The closed store guarantees that the history is legal. Allocates nothing; time is
/// linear in the pairs and entries.
pub fn has_premises<A: Allocator>(trail: &Trail<A>, program: &Code<A>, key: &[u8]) -> bool
    ensures tested { IsTrue result ↔ (RunsAlone program.now key.now trail.now.entries.items × (NeverFalls 0 (turns_of key.now trail.now.entries.items) × IsRecord (map.get (map.from_entries {R = key_cmp} trail.now.opening) key.now))) }
    ensures words { IsTrue result → HaveWords trail.now.entries.items }
{
    let entries = trail.entries.as_slice();
    if !is_alone(entries, program, key) {
        return false;
    }
    if !never_falls(entries, key) {
        return false;
    }
    opens_with_record(trail.opening.as_slice(), key)
}

/// Tests whether only runs of this program change the key in these entries. Allocates nothing.
pub fn is_alone<A: Allocator>(entries: &[KeptEntry<A>], program: &Code<A>, key: &[u8]) -> bool
    ensures alone { IsTrue result ↔ RunsAlone program.now key.now entries.now }
    ensures words { IsTrue result → HaveWords entries.now }
{
    for entry in entries {
        let _ = entry.session();
        if !only_runs(entry.command(), program, key) {
            return false;
        }
    }
    true
}

/// Tests whether the times of the runs on a key never fall. Allocates nothing.
pub fn never_falls<A: Allocator>(entries: &[KeptEntry<A>], key: &[u8]) -> bool
    ensures { IsTrue result ↔ NeverFalls 0 (turns_of key.now entries.now) }
{
    let mut from = 0;
    for entry in entries {
        if let Some(now) = time_in(entry, key) {
            if now < from {
                return false;
            }
            from = now;
        }
    }
    true
}

/// Tests whether the value of a key in an opening, if there is one, has at most 8,008 bytes. Allocates nothing.
pub fn opens_with_record<A: Allocator>(pairs: &[(Bytes<A>, Bytes<A>)], key: &[u8]) -> bool
    ensures { IsTrue result ↔ IsRecord (map.get (map.from_entries {R = key_cmp} pairs.now) key.now) }
{
    for pair in pairs {
        if pair.0.as_slice() == key {
            return is_record(pair.1.as_slice());
        }
    }
    true
}

// Returns true if the bytes are no longer than a record may be.
fn is_record(bytes: &[u8]) -> bool
    ensures { IsTrue result ↔ (AreBytes bytes.now × (length bytes.now ≤ record_limit)) }
{
    take_bytes(bytes);
    bytes.len() <= RECORD_LIMIT
}

// Returns true if a command does not change the key or is a run of the program.
fn only_runs<A: Allocator>(command: &Command<A>, program: &Code<A>, key: &[u8]) -> bool
    ensures alone { IsTrue result ↔ OnlyRuns program.now key.now command.now }
    ensures words { HasWords command.now }
{
    match command {
        Command::Fetch { .. } => true,
        Command::Store { key: own, .. } => own.as_slice() != key,
        Command::Delete { key: own } => own.as_slice() != key,
        Command::Run {
            key: own,
            prog,
            arg,
            now,
            ..
        } => {
            let _now = *now;
            take_bytes(arg.as_slice());
            if own.as_slice() != key {
                return true;
            }
            is_of(prog, program)
        }
        Command::Count => true,
    }
}

// Returns true if an accepted program is this code.
fn is_of<A: Allocator>(prog: &Program<A>, program: &Code<A>) -> bool
    ensures { IsTrue result ↔ (prog.now ≡ program.now) }
{
    *prog.verified().code() == *program
}

// Lemma: the bytes of a slice are below 256.
fn take_bytes(bytes: &[u8])
    ensures { AreBytes bytes.now }
{}

// Returns the time of an entry, or `None` if it is not an answered run on the key.
fn time_in<A: Allocator>(entry: &KeptEntry<A>, key: &[u8]) -> Option<u64>
    ensures { result ≡ option_map (λ t. t.now) (turn_in key.now entry.now.session entry.now.command entry.now.reply) }
{
    let Command::Run { key: own, now, .. } = entry.command() else {
        return None;
    };
    let Reply::Ran { .. } = entry.reply() else {
        return None;
    };
    if own.as_slice() != key {
        return None;
    }
    Some(*now)
}
