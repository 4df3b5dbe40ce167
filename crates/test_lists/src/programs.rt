//! Programs, as texts and as functions.

use crate::values::Value;
use bpf_asm::assemble;
use bpf_verify::verify;
use std::alloc::Global;
use std::sync::Arc;
use store_cmd::Program;

/// The number of programs.
pub const PROGRAMS: usize = 6;

// The texts of the programs. `end_of` computes their results, in the same order.
const TEXTS: [&str; PROGRAMS] = [
    "jlt r2, 8, +7\nldxdw r6, [r1+0]\nadd r6, 1\nstxdw [r1+0], r6\nmov r1, r6\ncall 1\nmov r0, 1\nexit\nmov r0, 0\nexit",
    "mov r0, 2\nexit",
    "jlt r2, 1, +1\nstb [r1+0], 9\nmov r0, 0\nexit",
    "call 2\nmov r6, r0\nmul r6, 16\ncall 3\nmul r0, 8\nadd r6, r0\ncall 4\nadd r6, r0\nmov r1, r6\ncall 1\nmov r0, 7\nexit",
    "jlt r2, 8, +6\njlt r4, 8, +5\nmov r2, r3\nmov r3, 8\ncall 5\nmov r0, 1\nexit\nmov r0, 0\nexit",
    "call 3\nadd r0, 1\nexit",
];

/// The input of a program.
#[derive(Clone, Copy)]
pub struct Given {
    pub value: Value,
    pub arg: Value,
    pub now: u64,
    pub present: bool,
    pub who: u64,
}

/// The end of a program: its exit number, its reply word and the value.
#[derive(Clone, Copy)]
pub struct End {
    pub code: u64,
    pub word: u64,
    pub value: Value,
}

fn program_of(alloc: Global, text: &str) -> Option<Program<Global>> {
    let code = assemble(alloc, text).ok()?;
    let accepted = verify(alloc, code).ok()?;
    Some(Program::new(Arc::new(alloc, accepted).ok()?))
}

/// The programs, in their order.
pub fn all_programs(alloc: Global) -> Option<Vec<Program<Global>>> {
    let mut programs = Vec::new(alloc);
    for text in TEXTS {
        programs.push(program_of(alloc, text)?).ok()?;
    }
    Some(programs)
}

fn with_head(value: Value, head: u64) -> Value {
    Value { head, ..value }
}

// Adds 1 to the number in the first eight bytes, and returns it as the reply word.
fn count_up(given: Given) -> End {
    let value = given.value;
    if value.count < 8 {
        return ended(0, 0, value);
    }
    let next = value.head.wrapping_add(1);
    ended(1, next, with_head(value, next))
}

// Copies the first eight bytes of the argument.
fn take_argument(given: Given) -> End {
    let value = given.value;
    if value.count < 8 || given.arg.count < 8 {
        return ended(0, 0, value);
    }
    ended(1, 0, with_head(value, given.arg.head))
}

fn ended(code: u64, word: u64, value: Value) -> End {
    End { code, word, value }
}

/// The end of the program with this index.
pub fn end_of(program: usize, given: Given) -> End {
    let present = u64::from(given.present);
    let value = given.value;
    match program {
        0 => count_up(given),
        1 => ended(2, 0, value),
        2 => ended(0, 0, value),
        3 => {
            let time = given.now.wrapping_mul(16);
            let rest = present.wrapping_mul(8).wrapping_add(given.who);
            ended(7, time.wrapping_add(rest), value)
        }
        4 => take_argument(given),
        _ => ended(present.wrapping_add(1), 0, value),
    }
}
