//! Encodes a code as bytes.

ghost use Rattle.std.specs.Prelude.{IfOk};
ghost use Rattle.bpf_insn.specs.Code.{IsImage};

use crate::code::Code;
use crate::spelling::put_insn;
use std::alloc::{AllocError, Allocator};

/// Returns the image of a code: the concatenated bytes of its instructions (RFC 9669, section 3).
/// `decode` turns the image back into the code. The only error is a failed allocation.
pub fn encode<A: Allocator, B: Allocator>(
    alloc: A,
    code: &Code<B>,
) -> Result<Vec<u8, A>, AllocError>
    ensures { IfOk result (λ image. IsImage code.now image.items) }
{
    let units = code.units();
    let mut image = Vec::with_capacity(alloc, 8 * units)?;
    for unit in 0..units {
        match code.insn_at(unit) {
            Some(insn) => put_insn(&mut image, insn)?,
            None => {}
        }
    }
    Ok(image)
}
