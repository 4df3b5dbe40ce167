//! Sentences about programs: invalid texts and images, and tasks that were not done.

use crate::sentence::{Part, Sentence, plain, with_one, with_three, with_two};
use bpf_asm::{AsmFault, FaultKind};
use bpf_insn::DecodeFault;
use dbm_args::{Subject, Words};
use prog_registry::RegFault;
use stock_names::NAMES;
use store_cmd::Refusal;
use worker_pool::PoolFault;

/// A program's file as a part of a sentence.
pub fn file_part<'a>(file: Option<&'a str>) -> Part<'a> {
    Part::Name(file.unwrap_or("FILE"))
}

/// The sentence for a text that is not UTF-8.
pub fn no_text_sentence<'a>(words: &Words<'a>) -> Sentence<'a> {
    let file = file_part(words.file);
    match words.subject {
        Subject::Asm => with_one(
            "{} is not UTF-8, so it is not a text. If it is an image, dbm disasm prints its text.",
            file,
        ),
        Subject::Disasm | Subject::Session | Subject::Other => with_one(
            "{} is not UTF-8, so it is not a text. If it is an image, use --image.",
            file,
        ),
    }
}

/// The sentence for an unknown stock program. It lists all names.
pub fn stock_sentence<'a>(word: Option<&'a str>) -> Sentence<'a> {
    with_two(
        "There is no stock program {}. The stock programs are {}. Write ./ before the word to name a file.",
        Part::Quoted(word.unwrap_or("")),
        Part::Text(NAMES),
    )
}

/// The sentence for a text that is not a program. Returns `None` if memory ran out.
pub fn assemble_sentence<'a>(words: &Words<'a>, fault: AsmFault) -> Option<Sentence<'a>> {
    let wrong = line_fault(fault.kind)?;
    Some(with_three(
        "Line {} of {}: {}. docs/ASSEMBLER.md has every instruction.",
        Part::Number(fault.line as u64),
        file_part(words.file),
        Part::Text(wrong),
    ))
}

// Returns the clause about an invalid line. Returns `None` if memory ran out.
fn line_fault(kind: FaultKind) -> Option<&'static str> {
    match kind {
        FaultKind::Mnemonic => Some("its first word is not an instruction"),
        FaultKind::Operand => Some(
            "an operand is missing or surplus, or is not of the form that the instruction takes",
        ),
        FaultKind::Number => Some("a number does not fit"),
        FaultKind::Label => Some("the label is not defined, or is defined twice"),
        FaultKind::Backward => {
            Some("the label is at or above the jump, and jumps only lead forward")
        }
        FaultKind::TooLong => Some("the program has more than 4,096 units here"),
        FaultKind::NoMemory => None,
    }
}

/// The sentence for an image that is not a program. Returns `None` if memory ran out.
pub fn decode_sentence<'a>(words: &Words<'a>, fault: DecodeFault) -> Option<Sentence<'a>> {
    let file = file_part(words.file);
    match fault {
        DecodeFault::Length => Some(with_two(
            "The length of {} is not a multiple of 8 bytes. {}.",
            file,
            Part::Text(if_text(words.subject)),
        )),
        DecodeFault::TooLong => Some(with_one("{} has more than 4,096 units of 8 bytes.", file)),
        DecodeFault::Opcode(unit) => Some(with_three(
            "No instruction begins at unit {} of {}: there is no such opcode. {}.",
            Part::Number(unit as u64),
            file,
            Part::Text(if_text(words.subject)),
        )),
        DecodeFault::HalfWide(unit) => Some(with_two(
            "The constant of 64 bits at unit {} of {} lacks its second unit.",
            Part::Number(unit as u64),
            file,
        )),
        DecodeFault::Register(unit) => Some(with_two(
            "The instruction at unit {} of {} names a register above R10.",
            Part::Number(unit as u64),
            file,
        )),
        DecodeFault::Reserved(unit) => Some(with_two(
            "The instruction at unit {} of {} has a field that must be 0 and is not.",
            Part::Number(unit as u64),
            file,
        )),
        DecodeFault::NoMemory => None,
    }
}

// The advice for a program image that may be a text.
fn if_text(subject: Subject) -> &'static str {
    match subject {
        Subject::Disasm => "If it is a text, dbm asm makes its image",
        Subject::Asm | Subject::Session | Subject::Other => "If it is a text, omit --image",
    }
}

/// The sentence for the refused program of a batch. Returns `None` if memory ran out or the registry is full.
pub fn submit_sentence<'a>(words: &Words<'a>, fault: RegFault) -> Option<Sentence<'a>> {
    match fault {
        RegFault::Decode(fault) => decode_sentence(words, fault),
        RegFault::Verify(fault) => Some(with_two(
            "The program in {} is not accepted. docs/PROGRAMS.md explains {} under Verdicts.",
            file_part(words.file),
            Part::Verdict(fault),
        )),
        RegFault::Full | RegFault::NoMemory => None,
    }
}

/// The sentence for a batch whose tasks were not all done. Returns `None` if memory ran out.
pub fn pool_sentence(fault: PoolFault) -> Option<Sentence<'static>> {
    match fault {
        PoolFault::NoWorkers => Some(plain("WORKERS is 0: a batch has from 1 to 4,096.")),
        PoolFault::NoSession => Some(plain("A batch has at most 4,096 workers.")),
        PoolFault::Refused(task, refusal) => refused_sentence(task, refusal),
        PoolFault::NoProgram(_) | PoolFault::NoThread(_) => Some(plain(UNDONE)),
        PoolFault::NoMemory => None,
    }
}

const UNDONE: &str =
    "The workers could not do all tasks, which should never happen. Nothing was changed.";

// The sentence for a refused task. Returns `None` if memory ran out.
fn refused_sentence(task: usize, refusal: Refusal) -> Option<Sentence<'static>> {
    let task = Part::Number(task as u64);
    match refusal {
        Refusal::PairTooLarge => Some(with_one(
            "Task {}, counted from 0: KEY and BLANK have more bytes together than a pair may have. Nothing was changed.",
            task,
        )),
        Refusal::ArgTooLong => Some(with_one(
            "Task {}, counted from 0: ARG has more than 1,024 bytes. Nothing was changed.",
            task,
        )),
        Refusal::TrailFull | Refusal::Strayed => Some(plain(UNDONE)),
        Refusal::NoMemory => None,
    }
}
