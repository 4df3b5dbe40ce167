//! Measures how many calls per second a desk and the sessions of a store answer.
//!
//! Each line of standard input is a measurement: the caller, the call, and the total number of calls.
//!
//! | Line | Caller |
//! |---|---|
//! | `desk CALL COUNT` | no session: each call is a `step` of a desk |
//! | `one CALL COUNT` | one session |
//! | `apart CALL COUNT` | four sessions in four threads, each on a separate page |
//! | `together CALL COUNT` | four sessions in four threads on one key |
//! | `grouped CALL COUNT` | one session, in groups of 32 calls |
//! | `crowd CALL COUNT` | four sessions in four threads, each on a separate page, in groups of 32 calls |
//!
//! A call is `fetch`; `store`; `run`, which adds 1 to a record of 8 bytes; or `long`, which runs a program of 4,000
//! instructions. The answer is the final number of entries of the trail. With `time` before the line, the answer also has the
//! calls per second and the nanoseconds per call. Without that word, the same lines always have the same answers.
//!
//! `turn PAIRS CALLS` opens a store over PAIRS pairs, makes CALLS fetches by 16 sessions, and closes it. The answer has the
//! numbers of pairs and entries, and with `time` before the line the microseconds for opening and closing.
#![tactic(auto)]

mod calls;
mod measuring;
mod programs;
mod turning;

use measuring::show_line;
use std::io;

fn main(rt: HostRuntime) -> io::Result<()> {
    for line in rt.lines(rt.alloc()) {
        let answer = show_line(&rt, rt.alloc(), line?.as_str())?;
        println!(rt; "{answer}")?;
    }
    Ok(())
}
