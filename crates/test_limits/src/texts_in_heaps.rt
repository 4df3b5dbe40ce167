//! Memory that runs out at each allocation of the assembler and of the disassembler.

use bpf_asm::{AsmFault, FaultKind, assemble, disassemble};
use bpf_insn::{Code, encode};
use linked_list_allocator::LocalHeap;
use std::alloc::{AllocError, Allocator, Global};
use std::fmt::Write;
use std::process::Abort;
use std::test::Fail;

// A text with several labels and a jump to each of them.
fn jumps(alloc: Global) -> Result<String, AllocError> {
    let mut text = String::new(alloc);
    for i in 0..20u32 {
        write!(text, "jeq r1, {i}, l{i}\n")?;
    }
    for i in 0..20u32 {
        write!(text, "l{i}:\nlddw r0, {i}\n")?;
    }
    Ok(text)
}

// Returns `true` if two codes have the same image.
fn same_image<A: Allocator, B: Allocator>(
    alloc: Global,
    one: &Code<A>,
    other: &Code<B>,
) -> Result<bool, AllocError> {
    Ok(encode(alloc, one)?.as_slice() == encode(alloc, other)?.as_slice())
}

// The least number of blocks of 16 bytes in which a text can be assembled. Smaller heaps have to refuse the text and to be
// empty again afterwards.
fn blocks_for_text(rt: &(impl Abort + AllocGlobal), text: &str) -> Result<usize, Fail> {
    let want = assemble(rt.alloc(), text)?;
    for blocks in 8..2000 {
        let heap = LocalHeap::new(rt.alloc(), 16 * blocks)?;
        match assemble(&heap, text) {
            Ok(code) => {
                assert!(rt; same_image(rt.alloc(), &code, &want)?);
                return Ok(blocks);
            }
            Err(fault) => {
                let refused = AsmFault {
                    line: 0,
                    kind: FaultKind::NoMemory,
                };
                assert_eq!(rt; fault, refused);
                assert_eq!(rt; heap.used(), 0);
            }
        }
    }
    Err(Fail::from("no heap is large enough"))
}

// The least number of blocks of 16 bytes in which a code can be disassembled.
fn blocks_for_code(rt: &(impl Abort + AllocGlobal), code: &Code) -> Result<usize, Fail> {
    let want = disassemble(rt.alloc(), code)?;
    for blocks in 8..2000 {
        let heap = LocalHeap::new(rt.alloc(), 16 * blocks)?;
        match disassemble(&heap, code) {
            Ok(text) => {
                assert_eq!(rt; text.as_str(), want.as_str());
                return Ok(blocks);
            }
            Err(AllocError) => assert_eq!(rt; heap.used(), 0),
        }
    }
    Err(Fail::from("no heap is large enough"))
}

#[test]
fn each_heap(rt: HostRuntime) -> Result<(), Fail> {
    let text = jumps(rt.alloc())?;
    let code = assemble(rt.alloc(), text.as_str())?;
    let for_text = blocks_for_text(&rt, text.as_str())?;
    assert!(rt; for_text > 100, "{for_text}");
    let for_code = blocks_for_code(&rt, &code)?;
    assert!(rt; for_code > 20, "{for_code}");
    Ok(())
}
