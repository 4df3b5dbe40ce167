//! Runs tasks with workers, as the lines request, and prints the results.
//!
//! Each line of standard input is a request. Its first word is the kind.
//!
//! | Line | Answer |
//! |---|---|
//! | `store LIMIT` | `store`: opens a store over an empty database, with this limit of its trail |
//! | `again LIMIT` | the same over the database of the store that was closed last |
//! | `program TEXT` | the number of a program, in the language of the assembler, with ` / ` instead of line feeds |
//! | `task KEY PROG ARG BLANK NOW` | the number of waiting tasks: adds a run of the program of this number; `.` means no blank |
//! | `tasks COUNT KEY PROG ARG BLANK` | the number of waiting tasks: adds COUNT runs, with the times from 0 |
//! | `jobs WORKERS` | the replies of the waiting tasks, or the fault; then the number of sessions, and the times of the calls of each session, up to the last that has calls |
//! | `session` | the number of another session, which makes no calls |
//! | `close` | `closed`, and the numbers of entries and of pairs; or `not closed`, and the fault. Hands in the calls of all sessions so far |
//! | `order` | the session of each entry of the store that was closed last, in order |
//! | `pass` | the line itself: from now on, until the next store or `meet`, no job comes to the gate, so that workers take no ticket |
//! | `meet COUNT` | the line itself: from now on, until the next store, each session is held at work until COUNT sessions are at work, and session 0 until session 1 has finished |
//! | `met` | the number of jobs that came to work, and the number of waits that timed out |
//! | `# TEXT` | the line itself |
//!
//! A line that fails, for example because memory runs out, is answered with `cannot`.
#![tactic(auto)]

mod jobs;
mod meeting;
mod report;

use jobs::Pool;
use meeting::Meeting;
use report::show_line;
use std::io;

fn main(rt: HostRuntime) -> io::Result<()> {
    let meeting = Meeting::new();
    let mut pool = Pool::new(rt.alloc(), &meeting)?;
    for line in rt.lines(rt.alloc()) {
        let answer = show_line(&rt, &mut pool, line?.as_str())?;
        println!(rt; "{answer}")?;
    }
    Ok(())
}
