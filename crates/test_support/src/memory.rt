//! Heaps without memory.
use linked_list_allocator::LocalHeap;
use std::alloc::{AllocError, Global};

/// The maximum number of attempts of a call that is repeated with more memory.
pub const MOST_TIMES: usize = 4000;

/// Allocates all memory of a heap except `spared` bytes, and returns the blocks.
pub fn fill<'a>(
    alloc: Global,
    heap: &'a LocalHeap,
    spared: usize,
) -> Result<Vec<Vec<u8, &'a LocalHeap>>, AllocError> {
    let spare: Vec<u8, &'a LocalHeap> = Vec::with_capacity(heap, spared)?;
    let mut blocks = Vec::new(alloc);
    for size in [4096, 512, 64, 16] {
        for _ in 0..100 {
            let Ok(block) = Vec::with_capacity(heap, size) else {
                break;
            };
            blocks.push(block)?;
        }
    }
    drop(spare);
    Ok(blocks)
}
