//! Verifications during which memory runs out, the memory that accepted programs keep, and comparisons of programs.

use bpf_asm::assemble;
use bpf_insn::Code;
use bpf_verify::{Refused, State, Verified, VerifyFault, examine, verify};
use linked_list_allocator::LocalHeap;
use std::alloc::{AllocError, Global};
use std::process::Abort;
use std::test::Fail;

// Adds one to the record's first eight bytes.
const COUNTER: &str =
    "jlt r2, 8, +5\nldxdw r6, [r1+0]\nadd r6, 1\nstxdw [r1+0], r6\nmov r0, 1\nexit\nmov r0, 0\nexit";

// A program of one jump over `count` instructions.
fn jump_over(alloc: Global, count: usize) -> Result<String, AllocError> {
    let mut text = format!(in alloc; "mov r0, 0\nja +{count}\n")?;
    for _ in 0..count {
        text.push_str("mov r0, 0\n")?;
    }
    text.push_str("exit")?;
    Ok(text)
}

// After a failed allocation the program is returned, and nothing else is left in the heap.
#[test]
fn each_growth_refused(rt: HostRuntime) -> Result<(), Fail> {
    let want = assemble(rt.alloc(), COUNTER)?;
    let mut was_refused = false;
    for blocks in 8..600usize {
        let heap = LocalHeap::new(rt.alloc(), 16 * blocks)?;
        let Ok(code) = assemble(&heap, COUNTER) else {
            continue;
        };
        let taken = heap.used();
        match verify(&heap, code) {
            Ok(verified) => {
                assert_eq!(rt; verified.code().len(), want.len());
                assert!(rt; heap.used() < 8192);
                assert!(rt; was_refused);
                return Ok(());
            }
            Err((fault, back)) => {
                assert_eq!(rt; fault, VerifyFault::NoMemory);
                assert_eq!(rt; back.len(), want.len());
                assert_eq!(rt; heap.used(), taken);
                was_refused = true;
            }
        }
    }
    Err(Fail::from("no heap is large enough"))
}

// `examine` also copies states, which may fail too. It then returns program and states, and leaves nothing else in the heap.
#[test]
fn each_growth_refused_to_examine(rt: HostRuntime) -> Result<(), Fail> {
    let want = assemble(rt.alloc(), COUNTER)?;
    let mut was_refused = false;
    for blocks in 8..1200usize {
        let heap = LocalHeap::new(rt.alloc(), 16 * blocks)?;
        let Ok(code) = assemble(&heap, COUNTER) else {
            continue;
        };
        let taken = heap.used();
        match examine(&heap, code) {
            Ok(examined) => {
                assert_eq!(rt; examined.code().len(), want.len());
                assert!(rt; was_refused);
                return Ok(());
            }
            Err(
                Refused {
                    fault,
                    code,
                    states,
                },
            ) => {
                assert_eq!(rt; fault, VerifyFault::NoMemory);
                assert_eq!(rt; code.len(), want.len());
                drop(states);
                assert_eq!(rt; heap.used(), taken);
                was_refused = true;
            }
        }
    }
    Err(Fail::from("no heap is large enough"))
}

// A text of 4,096 reachable units.
fn straight_line(alloc: Global) -> Result<String, AllocError> {
    let mut text = String::from_str(alloc, "mov r0, 0\n")?;
    for _ in 0..4094 {
        text.push_str("add r0, 1\n")?;
    }
    text.push_str("exit")?;
    Ok(text)
}

// The number of bytes that an accepted program keeps in addition to its code. All states together would take 2 MB; the heap has
// half of that.
fn kept(rt: &impl Abort, alloc: Global, text: &str) -> Result<usize, Fail> {
    let heap = LocalHeap::new(alloc, 1 << 20)?;
    let code = assemble(&heap, text)?;
    let before = heap.used();
    let Ok(verified) = verify(&heap, code) else {
        return Err(Fail::from("it is refused"));
    };
    assert_eq!(rt; verified.code().len(), 4096usize);
    Ok(heap.used().saturating_sub(before))
}

// A unit takes 8 bytes for itself, 8 for its ready form and 24 for the kinds of its registers, and 40 for each new kind. So it
// takes 80 bytes if each instruction makes a new kind, and 40 if the unit has no state.
#[test]
fn units_take_little(rt: HostRuntime) -> Result<(), Fail> {
    let line = straight_line(rt.alloc())?;
    assert!(rt; kept(&rt, rt.alloc(), line.as_str())? < 332_000);
    let jump = jump_over(rt.alloc(), 4093)?;
    assert!(rt; kept(&rt, rt.alloc(), jump.as_str())? < 168_000);
    Ok(())
}

// Returns `true` if a program has the kinds of this state at a unit, or no kinds if there is no state.
fn has_kinds(verified: &Verified, state: Option<&State>, at: usize) -> bool {
    for register in 0..11u8 {
        let kind = match state {
            Some(known) => Some(known.kind(register)),
            None => None,
        };
        if verified.kind(at, register as usize) != kind {
            return false;
        }
    }
    true
}

// Counts the states of an accepted program. Returns `None` if the program's kinds at some unit differ from those of its state
// there.
fn count_states(alloc: Global, text: &str) -> Result<Option<usize>, Fail> {
    let Ok(verified) = verify(alloc, assemble(alloc, text)?) else {
        return Err(Fail::from("it is refused"));
    };
    let Ok(examined) = examine(alloc, assemble(alloc, text)?) else {
        return Err(Fail::from("it is refused once more"));
    };
    let mut count = 0usize;
    for at in 0..verified.code().units() + 2 {
        if !has_kinds(&verified, examined.states().get(at), at) {
            return Ok(None);
        }
        if examined.states().get(at).is_some() {
            count = count.wrapping_add(1);
        }
    }
    Ok(Some(count))
}

// The kinds of registers, with joins, calls, a constant of two units, and unreachable units.
#[test]
fn kinds_of_registers(rt: HostRuntime) -> Result<(), Fail> {
    assert_eq!(rt; count_states(rt.alloc(), COUNTER)?, Some(8));
    assert_eq!(rt; count_states(rt.alloc(), "lddw r0, 7\nexit")?, Some(2));
    assert_eq!(rt;
        count_states(rt.alloc(), "mov r0, 0\nja +1\nmov r0, r1\nexit")?,
        Some(3)
    );
    assert_eq!(rt;
        count_states(
            rt.alloc(),
            "mov r6, r1\nmov r1, 5\ncall 1\nmov r0, r6\nmov r0, 1\nexit"
        )?,
        Some(6)
    );
    assert_eq!(rt;
        count_states(
            rt.alloc(),
            "jlt r4, 8, +2\nldxb r6, [r3+7]\nja +1\nmov r6, r2\nmov r0, 0\nexit"
        )?,
        Some(6)
    );
    Ok(())
}

// A refused program is returned.
#[test]
fn a_refused_program_comes_back(rt: HostRuntime) -> Result<(), Fail> {
    let code = assemble(rt.alloc(), "mov r0, r1\nexit")?;
    let same = assemble(rt.alloc(), "mov r0, r1\nexit")?;
    match verify(rt.alloc(), code) {
        Ok(_verified) => Err(Fail::from("it is accepted")),
        Err((fault, back)) => {
            assert_eq!(rt; fault, VerifyFault::ExitNotNumber(1));
            assert!(rt; back == same);
            Ok(())
        }
    }
}

// Returns `true` if two texts are accepted and give the same program.
fn are_same(alloc: Global, one: &str, other: &str) -> Result<bool, Fail> {
    let one: Code = assemble(alloc, one)?;
    let other: Code = assemble(alloc, other)?;
    let Ok(one) = verify(alloc, one) else {
        return Err(Fail::from("the first is refused"));
    };
    let Ok(other) = verify(alloc, other) else {
        return Err(Fail::from("the second is refused"));
    };
    Ok(one == other)
}

// Accepted programs are the same if their instructions are.
#[test]
fn equal_programs(rt: HostRuntime) -> Result<(), Fail> {
    assert!(rt; are_same(rt.alloc(), COUNTER, COUNTER)?);
    assert!(rt; !are_same(rt.alloc(), "mov r0, 0\nexit", "mov r0, 1\nexit")?);
    assert!(rt; !are_same(rt.alloc(), "mov r0, 0\nexit", "mov r0, 0\nmov r0, 0\nexit")?);
    Ok(())
}
