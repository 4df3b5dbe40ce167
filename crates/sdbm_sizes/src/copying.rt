//! Copies pages of a `.pag` that was read in pieces.
ghost use Rattle.std.specs.Prelude.{◌≡◌, ◌<◌, ◌≤◌, ◌+◌, ◌*◌, ◌-◌, ◌++◌, length, replicate, IfOk, OnOk};
ghost use Rattle.sdbm_addr.specs.declared.PageSize.TheVariants.{Wide};
ghost use Rattle.sdbm_addr.specs.Files.{page_at};
ghost use Rattle.sdbm_files.specs.Limits.{most_pages};

use sdbm_files::{BLOCK, ReadPages};
use std::alloc::{AllocError, Allocator};

/// Copies wide page `number`, or returns an error if allocation fails.
pub fn copy_page<A: Allocator + Copy>(
    alloc: A,
    pag: &ReadPages<A>,
    number: usize,
) -> Result<Vec<u8, A>, AllocError>
    requires inside { (number + 1) * 8192 ≤ length pag.now.bytes }
    requires low { number < most_pages Wide }
    ensures { IfOk result (λ page. page.items ≡ page_at Wide pag.now.bytes number) }
{
    let mut page = Vec::with_capacity(alloc, 8 * BLOCK)?;
    for index in 0..8 {
        push_block(&mut page, pag.block(8 * number + index))?;
    }
    Ok(page)
}

// Appends a block to a page, padded with zeros to 1,024 bytes.
fn push_block<A: Allocator>(page: &mut Vec<u8, A>, block: &[u8]) -> Result<(), AllocError>
    requires { length block.now ≤ 1024 }
    ensures { OnOk result (page.new.items ≡ page.old.items ++ (block.now ++ replicate (1024 - length block.now) 0)) }
{
    let end = page.len() + BLOCK;
    page.extend_from_slice(block)?;
    page.resize(end, 0)?;
    Ok(())
}
