//! Submissions during which memory runs out.

use bpf_asm::assemble;
use bpf_insn::encode;
use bpf_verify::VerifyFault;
use linked_list_allocator::LocalHeap;
use prog_registry::{ProgId, RegFault, Registry};
use std::alloc::{AllocError, Global};
use std::process::Abort;
use std::test::Fail;

fn image_of(alloc: Global, text: &str) -> Result<Vec<u8>, Fail> {
    let code = assemble(alloc, text)?;
    Ok(encode(alloc, &code)?)
}

// Takes all memory of a heap except `spared` blocks.
fn fill<'a>(
    alloc: Global,
    heap: &'a LocalHeap,
    spared: usize,
) -> Result<Vec<Vec<u8, &'a LocalHeap>>, AllocError> {
    let mut blocks = Vec::new(alloc);
    for _ in 0..1024usize {
        let Ok(block) = Vec::with_capacity(heap, 16) else {
            break;
        };
        blocks.push(block)?;
    }
    let kept = blocks.len().saturating_sub(spared);
    blocks.truncate(kept);
    Ok(blocks)
}

// A failed allocation changes nothing. Once there is memory, the same registry gives a number to the same image.
#[test]
fn each_growth_refused(rt: HostRuntime) -> Result<(), Fail> {
    let image = image_of(rt.alloc(), "mov r0, 0\nexit")?;
    let heap = LocalHeap::new(rt.alloc(), 16 * 1024)?;
    let mut registry = Registry::new(&heap)?;
    for spared in 0..1024usize {
        let _blocks = fill(rt.alloc(), &heap, spared)?;
        match registry.submit(&image) {
            Ok(id) => {
                assert_eq!(rt; id, ProgId(0));
                assert!(rt; spared > 0);
                return Ok(());
            }
            Err(fault) => {
                assert_eq!(rt; fault, RegFault::NoMemory);
                assert!(rt; registry.get(ProgId(0)).is_none());
                assert_eq!(rt; registry.recent(), 0);
            }
        }
    }
    Err(Fail::from("the heap is too small"))
}

// A verdict is returned even if there is no memory to store it.
#[test]
fn verdict_without_room(rt: HostRuntime) -> Result<(), Fail> {
    let empty: [u8; 0] = [];
    let mut was_told = false;
    for blocks in 1..2048usize {
        let heap = LocalHeap::new(rt.alloc(), 16 * blocks)?;
        let Ok(mut registry) = Registry::new(&heap) else {
            continue;
        };
        let Err(fault) = registry.submit(&empty) else {
            return Err(Fail::from("no bytes are a program"));
        };
        assert_eq!(rt; fault, RegFault::Verify(VerifyFault::Empty));
        if registry.recent() == 1 {
            assert!(rt; was_told);
            return Ok(());
        }
        assert_eq!(rt; registry.recent(), 0);
        was_told = true;
    }
    Err(Fail::from("no heap is large enough"))
}
