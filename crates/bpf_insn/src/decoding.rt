//! Decodes bytes to a code.

ghost use Rattle.std.specs.Prelude.{◌≡◌, ◌≢◌, ◌≤◌, ◌<◌, ◌/◌, ◌%◌, ◌↔◌, List, length, IfOk, IfErr, IsErrOf};
ghost use Rattle.bpf_insn.specs.Code.{IsImage, unit_limit};
ghost use Rattle.bpf_insn.specs.Decoding.{HasFault, IsCodeUnlessMemory, IsWhole, IsShort};

use crate::code::{Code, UNIT_LIMIT};
use crate::fault::DecodeFault;
use crate::insn::Insn;
use crate::reading::first_insn;
use std::alloc::Allocator;

/// Decodes an image of whole units, at most 4,096, one instruction at a time.
fn decode_units<A: Allocator>(alloc: A, image: &[u8]) -> Result<Code<A>, DecodeFault>
    requires whole { IsWhole image.now }
    requires short { IsShort image.now }
    ensures found { IfOk result (λ code. IsImage code image.now) }
    ensures only { (code : List Insn) → IsImage code image.now → IsCodeUnlessMemory result code }
    ensures fault { IfErr result (HasFault image.now) }
{
    let mut code = Code::with_capacity(alloc, image.len() / 8)?;
    let mut rest = image;
    while !rest.is_empty() {
        let insn = match first_insn(rest) {
            Ok(insn) => insn,
            Err(fault) => return Err(fault.at(code.units())),
        };
        code.push(insn)?;
        let (_, behind) = rest.split_at(8 * insn.units());
        rest = behind;
    }
    Ok(code)
}

/// Decodes an image. Reads each unit once.
///
/// # Errors
/// `Length` if the number of bytes is not a multiple of 8; otherwise `TooLong` if there are more than
/// 4,096 units. Otherwise the fault of the first invalid instruction: the first applicable of
/// `Opcode`, `HalfWide`, `Register` and `Reserved`. `NoMemory` if allocation fails.
pub fn decode<A: Allocator>(alloc: A, image: &[u8]) -> Result<Code<A>, DecodeFault>
    // The bytes are the image of the returned code. If the bytes are the image of a code, this code
    // is returned, unless memory runs out.
    ensures found { IfOk result (λ code. IsImage code image.now) }
    ensures only { (code : List Insn) → IsImage code image.now → IsCodeUnlessMemory result code }

    // The condition of each fault.
    ensures length { IsErrOf result DecodeFault.Length ↔ (length image.now % 8 ≢ 0) }
    ensures too_long { IsErrOf result DecodeFault.TooLong ↔ (IsWhole image.now × (unit_limit < length image.now / 8)) }
    ensures fault { IfErr result (HasFault image.now) }
{
    if image.len() % 8 != 0 {
        return Err(DecodeFault::Length);
    }
    if image.len() / 8 > UNIT_LIMIT {
        return Err(DecodeFault::TooLong);
    }
    decode_units(alloc, image)
}
