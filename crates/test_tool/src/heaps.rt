//! Scripts in heaps of each size.

use crate::streams::{Collected, answers, giving, run};
use dbm_script::ScriptFault;
use linked_list_allocator::LocalHeap;
use std::alloc::Global;

// Runs a script in a heap of `size` bytes. Returns `true` if there is enough memory and `false` if not. Returns `None` if the
// answers differ from `told`, if a refused script has another fault or wrote something, or if the heap is not empty afterwards.
fn is_answered(global: Global, size: usize, script: &[u8], told: &[u8]) -> Option<bool> {
    let heap = LocalHeap::new(global, size).ok()?;
    let mut writer = Collected::new(global, 4096, None);
    let came = run(&heap, &mut giving(script, 4096), &mut writer);
    let said = writer.text.as_slice();
    if heap.used() != 0 {
        return None;
    }
    match came {
        Ok(_) if said == told => Some(true),
        Err(ScriptFault::NoMemory) if said.is_empty() => Some(false),
        _ => None,
    }
}

// Tries heaps of 128, 144, 160 bytes and so on, and returns the size of the first in which a script is answered.
fn least_heap(global: Global, script: &[u8]) -> Option<usize> {
    let told = answers(global, script);
    for blocks in 8..4000 {
        if is_answered(global, 16 * blocks, script, told.as_slice())? {
            return Some(16 * blocks);
        }
    }
    None
}

/// Says whether the least heap in which a script is answered has more than `count` bytes. In every smaller heap, the script
/// has to be refused and to write nothing.
pub fn heaps_text(global: Global, script: &[u8], count: &str) -> Option<String> {
    let count = count.parse::<usize>().ok()?;
    let text = if least_heap(global, script)? > count {
        "refused in each heap up to a larger one"
    } else {
        "answered in a heap of so many bytes"
    };
    String::from_str(global, text).ok()
}
