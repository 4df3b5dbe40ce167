//! Computes knowledge of numbers, runs programs on records, and measures both machines, as the lines of standard input request.
//!
//! Each line of standard input is a case. Its first word is the kind.
//!
//! | Line | Answer |
//! |---|---|
//! | `image RECORD ARGUMENT NOW KEY WHO IMAGE` | `ended CODE WORD STEPS RECORD` on the checked machine, or `stuck AT RECORD` |
//! | `text RECORD ARGUMENT NOW KEY WHO TEXT` | the same for a text, with ` / ` instead of line feeds |
//! | `changes TEXT` | of all images that differ from a text's in one byte, the numbers of invalid and of refused ones, and of those that run alike, or not, on both machines on records of 0, 7, 8, 1,008 and 8,008 zeros |
//! | `file RECORD ARGUMENT NOW KEY WHO NAME` | `code CODE, word WORD, STEPS steps, VALUE` for the program in a file of `data/`, or its refusal |
//! | `example RECORD ARGUMENT NOW KEY WHO TEXT` | the same for a text |
//! | `verdict TEXT` | `accepted`, or the refusal of the text |
//! | `MACHINE counter ROUNDS` | the steps and a sum of the results of ROUNDS runs of a program that adds 1 to a record of 8 bytes; `MACHINE` is `run` or `run_checked` |
//! | `MACHINE line LENGTH ROUNDS` | the same for a straight line of LENGTH instructions, at least 4: arithmetic on two registers |
//! | `MACHINE image RECORD ARGUMENT IMAGE ROUNDS` | the same for an accepted image; each run begins with that record |
//! | `verify ..` | the same for ROUNDS verdicts on such a program; its units count as steps |
//! | `time LINE` | the same for such a line, with the instructions or units per second, and the nanoseconds per run or verdict |
//! | `transfer OPERATION WIDTH RANGE RANGE` | the range of the results |
//! | `refine TEST WIDTH EDGE RANGE RANGE` | both ranges on that edge of a conditional jump, or `never` |
//! | `of RANGE` | the knowledge of a number in the range |
//! | `known OPERATION WIDTH KNOWN KNOWN` | the knowledge of the results |
//! | `join KNOWN KNOWN` | the knowledge of a number that is one or the other |
//! | `refined TEST WIDTH EDGE KNOWN KNOWN` | the knowledge of both on that edge, or `never` |
//! | `helper NUMBER` | the knowledge of the number that a helper returns, or `never` if there is no such helper |
//! | `# WORDS` | the line itself |
//!
//! Bytes are in hex, `.` is the empty string, and `+N` after bytes means N more zeros. The printed record is the one that the
//! run left, and its last zeros are written in this form. `KEY` is `there` or `absent`; if it is `absent`, the record of an
//! example is zeros. `VALUE` is the value of the key after the exit number has taken effect: bytes, or `none`. The program of
//! an example is verified before it runs. A range is `LO..HI`, knowledge is `LO..HI,VALUE,UNKNOWN`, and an edge is `taken` or
//! `untaken`. Operations and tests have the names of the assembler.
//!
//! The first 112 images have the answers of an independent machine that tests everything. The next 402 have those of an
//! independent implementation of the meaning of a run of an accepted program. The last 51 texts have the answers of a model in
//! Python. The other texts were worked out by hand from the rules of a step. The examples were, too; a separate interpreter
//! counted their steps. The first 48 lines of `transfer`, 56 of `refine`, 18 of `known` and 4 of `join` have the answers of an
//! independent implementation of the rules. The rest have those of a second implementation, which also gives the answers of the
//! first; 15 lines, up to the helpers, were worked out by hand. The last 83 lines of ranges have the answers of a third
//! implementation, which agrees on all other lines. Each of the 83 lines is a case that a correct but less precise answer would
//! miss.
#![tactic(auto)]

mod both;
mod changes;
mod examples;
mod lines;
mod measuring;
mod programs;
mod ranges;
mod runs;

use changes::show_changes;
use examples::{show_example, show_verdict};
use lines::{UNREAD, read_input};
use measuring::show_measurement;
use ranges::show_range;
use runs::show_run;
use std::alloc::{AllocError, Global};
use std::rt::{Clock, Files};
use std::{fs, io};

// The text of a program, which is given on one line or in a file.
fn program_text<R: Files + AllocGlobal>(rt: &R, word: &str, program: &str) -> io::Result<String> {
    match word {
        "file" => fs::read_to_string(rt, program),
        _ => Ok(program.replace(rt.alloc(), " / ", "\n")?),
    }
}

// The answer to the run of an example.
fn answer_example<R: Files + AllocGlobal>(rt: &R, word: &str, rest: &str) -> io::Result<String> {
    let alloc = rt.alloc();
    let Some((input, program)) = read_input(alloc, rest) else {
        return Ok(String::from_str(alloc, UNREAD)?);
    };
    let text = program_text(rt, word, program)?;
    Ok(show_example(alloc, text.as_str(), input)?)
}

// The answer to a line that needs neither files nor a clock.
fn answer_alone(alloc: Global, word: &str, rest: &str, line: &str) -> Result<String, AllocError> {
    match word {
        "#" => String::from_str(alloc, line),
        "image" | "text" => show_run(alloc, word, rest),
        "changes" => show_changes(alloc, rest),
        "verdict" => show_verdict(alloc, rest),
        _ => show_range(alloc, line),
    }
}

// The answer to a line of standard input.
fn answer<R: Files + Clock + AllocGlobal>(rt: &R, line: &str) -> io::Result<String> {
    let (word, rest) = line.split_once(' ').unwrap_or((line, ""));
    match word {
        "file" | "example" => answer_example(rt, word, rest),
        "run" | "run_checked" | "verify" | "time" => show_measurement(rt, rt.alloc(), line),
        _ => Ok(answer_alone(rt.alloc(), word, rest, line)?),
    }
}

fn main(rt: HostRuntime) -> io::Result<()> {
    for line in rt.lines(rt.alloc()) {
        let answer = answer(&rt, line?.as_str())?;
        println!(rt; "{answer}")?;
    }
    Ok(())
}
