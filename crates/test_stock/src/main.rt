//! Compares the codes of the stock programs with the texts of `examples/`.
//!
//! Each line of standard input is the name of a program and a file of `data/`, which has copies of the texts of `examples/`.
//! The answer is `same` if the text denotes the code with that name and `other` if it denotes another code. It is `none` if no
//! stock program has the name or the text is invalid.
#![tactic(auto)]

use bpf_asm::assemble;
use bpf_insn::Code;
use std::alloc::{AllocError, Global};
use std::{fs, io};
use stock_programs::{
    bounded_add_code, bounded_counter_code, compare_and_set_code, counter_code, fenced_lease_code,
    lease_code, rate_limit_code, semaphore_code, sequence_code, token_bucket_code,
};

// The code of the stock program with a name.
fn code_named(alloc: Global, name: &str) -> Result<Option<Code>, AllocError> {
    let code = match name {
        "counter" => counter_code(alloc)?,
        "bounded_add" => bounded_add_code(alloc)?,
        "bounded_counter" => bounded_counter_code(alloc)?,
        "compare_and_set" => compare_and_set_code(alloc)?,
        "sequence" => sequence_code(alloc)?,
        "lease" => lease_code(alloc)?,
        "fenced_lease" => fenced_lease_code(alloc)?,
        "rate_limit" => rate_limit_code(alloc)?,
        "semaphore" => semaphore_code(alloc)?,
        "token_bucket" => token_bucket_code(alloc)?,
        _ => return Ok(None),
    };
    Ok(Some(code))
}

// The answer to a name and a text.
fn compared(alloc: Global, name: &str, text: &str) -> Result<&'static str, AllocError> {
    let Some(code) = code_named(alloc, name)? else {
        return Ok("none");
    };
    let Ok(own) = assemble(alloc, text) else {
        return Ok("none");
    };
    if own == code {
        return Ok("same");
    }
    Ok("other")
}

fn main(rt: HostRuntime) -> io::Result<()> {
    let alloc = rt.alloc();
    for line in rt.lines(alloc) {
        let line = line?;
        let (name, file) = line.as_str().split_once(' ').unwrap_or((line.as_str(), ""));
        let text = fs::read_to_string(&rt, file)?;
        let answer = compared(alloc, name, text.as_str())?;
        println!(rt; "{name} {answer}")?;
    }
    Ok(())
}
