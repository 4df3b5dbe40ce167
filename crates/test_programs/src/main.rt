//! Decodes images, assembles and verifies texts, submits programs to a registry, and prints the results.
//!
//! Each line of standard input is a case. Its first word is the kind.
//!
//! | Line | Answer |
//! |---|---|
//! | `form IMAGE TEXT` | the text, the instruction of the image, the image's text, and the text's image |
//! | `image IMAGE` | the instructions and their text, or the fault |
//! | `text TEXT` | the image, or the fault; `\n`, `\r` and `\t` are a line feed, a carriage return and a tab |
//! | `file NAME` | the same for the text in a file of `data/` |
//! | `program TEXT` | `accepted`, or the fault |
//! | `ends TEXT` | the same, for the text with `mov r0, 0 / exit` after it |
//! | `filled COUNT TEXT` | the same, with each `*` replaced by COUNT times `mov r0, 0` |
//! | `kinds UNIT TEXT` | the kinds of the registers before the instruction at a unit, without unset registers; `nothing` if the unit has no state |
//! | `why TEXT` | the reason why a program is refused, in a sentence |
//! | `explain TEXT` | the explanation of a program, ` / ` between its lines |
//! | `submit TEXT` | `program ID`, or `refused FAULT` |
//! | `offer BYTES` | the same for an image |
//! | `each FROM TO TEXT` | the first and the last answer and the number of refusals, with FROM to TO - 1 in place of `#` |
//! | `get ID` | the text of a program, or `none` |
//! | `counts` | the number of stored verdicts, and the number of answers from them |
//! | `new` | `new`; the following lines use a new registry |
//! | `# WORDS` | the line itself |
//!
//! Images are in hex, and `.` is the empty image; `+N` after the bytes of an offer means N more zeros. From `program` on, a
//! text has ` / ` instead of line feeds, and `.` is the empty text.
//!
//! LLVM's assembler and disassembler confirmed the forms. The first 112 images and the first 196 texts have the answers of an
//! independent decoder and assembler. The other texts were worked out from the rules, and the last of these are the examples of
//! `docs/ASSEMBLER.md`. Next come the image of the counter and the programs of `examples/`; `data/` has unchanged copies of
//! these. The first 364 verdicts have the answers of an independent verifier that was written from the rules. Verdicts 436 to
//! 471 have the answers of a second verifier, which agrees on all others. The 3,000 verdicts from 481 on, at the edges of every
//! rule, have those of a third. The other verdicts were worked out by hand.
#![tactic(auto)]

mod submissions;
mod texts;
mod verdicts;

use prog_registry::Registry;
use std::alloc::{AllocError, Global};
use std::rt::Files;
use std::{fs, io};
use submissions::show_submission;
use texts::{show_form, show_image, show_text, unescaped};
use verdicts::show_verified;

// The answer to a line that needs no file.
fn answer_alone(alloc: Global, registry: &mut Registry, line: &str) -> Result<String, AllocError> {
    let (word, rest) = line.split_once(' ').unwrap_or((line, ""));
    match word {
        "#" => String::from_str(alloc, line),
        "form" => show_form(alloc, rest),
        "image" => show_image(alloc, rest),
        "text" => show_text(alloc, unescaped(alloc, rest)?.as_str()),
        "program" | "ends" | "filled" | "kinds" | "why" | "explain" => show_verified(
            alloc, word, rest,
        ),
        _ => show_submission(alloc, registry, line),
    }
}

// The answer to a line of standard input.
fn answer<R: Files + AllocGlobal>(
    rt: &R,
    registry: &mut Registry,
    line: &str,
) -> io::Result<String> {
    let alloc = rt.alloc();
    let answer = match line.strip_prefix("file ") {
        Some(name) => show_text(alloc, fs::read_to_string(rt, name)?.as_str())?,
        None => answer_alone(alloc, registry, line)?,
    };
    Ok(answer)
}

fn main(rt: HostRuntime) -> io::Result<()> {
    let mut registry = Registry::new(rt.alloc())?;
    for line in rt.lines(rt.alloc()) {
        let line = line?;
        if line.as_str() == "new" {
            registry = Registry::new(rt.alloc())?;
        }
        let answer = answer(&rt, &mut registry, line.as_str())?;
        println!(rt; "{answer}")?;
    }
    Ok(())
}
