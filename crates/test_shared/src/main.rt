//! Executes lines on stores and their sessions, and prints the results.
//!
//! Standard input is a list of cases, separated by empty lines. The first line of a case is its title. The second line says how
//! to open its store: `WHO FROM LIMIT GATE`.
//!
//! | Word | Meaning |
//! |---|---|
//! | `WHO` | `turns`: the sessions make their calls in turn; `lean`: the same, in memory that runs out; `apart`: each session in a separate thread; `beside`: two sessions in two threads, and one of them runs long programs |
//! | `FROM` | `empty`: the store is opened over an empty database; `kept`: over the database of the store that was closed last |
//! | `LIMIT` | the maximum number of entries in the trail |
//! | `GATE` | `free` computes the jobs, and in `apart` means no gate; `passing` wants no jobs, so that calls take no ticket; `refusing` returns the first job; `meeting` has two sessions at work at once; `keeping COUNT` holds the first job of session 0 at work until COUNT jobs arrived and other jobs wait for its page; `dropping COUNT` does the same and then returns the job; `first` wants a job only for the first call, and holds it at work for a while |
//!
//! The following lines make calls, up to `end`.
//!
//! | Line | Answer |
//! |---|---|
//! | `sessions COUNT` | makes COUNT more sessions: the number of all sessions, or the reason why no more are made |
//! | `SESSION COMMAND` | the reply, or the refusal |
//! | `watch SESSION COMMAND` | the reply; the session repeats this call after each call that is refused because memory ran out |
//! | `group SESSION COMMAND / COMMAND / ..` | the outcome of each of these calls, which are made as a group, or that there was no memory to make any |
//! | `COUNT calls COMMAND / COMMAND / ..` | in `apart`, for each of COUNT sessions: the number of its replies if there are many, otherwise its replies and the refusal, if any |
//! | `COUNT times CALLS COMMAND` | the same for CALLS calls of one command |
//! | `COUNT rolls SEED KEYS CALLS` | the same for CALLS random calls on KEYS keys |
//! | `COUNT grouped ..` | the same for any of these three lines, with groups of 16 calls |
//!
//! A `beside` case has two lines, and no gate. The first line is `CALLS COUNT UNIT COMMAND`: a group of CALLS calls of one
//! command. The command runs a program; its image has COUNT copies of the unit instead of `~`. The second line is a short
//! command. The answer says whether the short command is answered while the programs run.
//!
//! `end` ends the sessions in order. It reports each session that made calls, and the number of its calls. The calls of all
//! sessions are appended to those in hand, which have indices from 0. The following lines close the store; without such lines
//! the store is dropped.
//!
//! | Line | Answer |
//! |---|---|
//! | `close PLACE PLACE ..` | closes with the calls at these indices: `closed`, and the trail's numbers of entries and opening pairs; or the fault |
//! | `order`, `pairs` | for the closed store, the sessions of its trail's entries, and its pairs |
//!
//! A trail is replayed on a plain map, which has to give the same replies and pairs. The keys have up to two bytes. Each run is
//! one of the counter, which adds 1 to the number in the first 8 bytes of the record and returns the sum as the reply word. The
//! counter leaves a shorter record unchanged.
//!
//! In a `lean` case each call begins with a full heap. The call is repeated with 16 bytes more until there is enough memory,
//! which is reported as `with more memory`. Sessions are made and ended, and stores closed, while the heap has no memory.
#![tactic(auto)]

mod apart;
mod bench;
mod beside;
mod calls;
mod case;
mod cases;
mod closing;
mod gate;
mod plain;
mod rolls;
mod turns;

use cases::Benches;
use linked_list_allocator::LocalHeap;
use std::io;

fn main(rt: HostRuntime) -> io::Result<()> {
    let mut text = String::new(rt.alloc());
    for line in rt.lines(rt.alloc()) {
        text.push_str(line?.as_str())?;
        text.push_str("\n")?;
    }
    let heap = LocalHeap::new(rt.alloc(), 409600)?;
    let mut benches = Benches::new(&rt, rt.alloc(), &heap);
    for case in text.trim_end().split("\n\n") {
        match benches.answer(case) {
            Some(answer) => print!(rt; "{answer}")?,
            None => println!(rt; "a case that cannot be read")?,
        }
    }
    Ok(())
}
