//! Decodes and verifies images.

ghost use Rattle.std.specs.Prelude.{IfOk, IfErr};
ghost use Rattle.bpf_insn.specs.Code.{IsImage};
ghost use Rattle.prog_registry.specs.Judged.{IsProgramOf, Condemns};

use crate::fault::RegFault;
use bpf_insn::{Code, DecodeFault, decode};
use bpf_verify::{Verified, VerifyFault, verify};
use std::alloc::Allocator;

/// Decodes an image.
fn decoded<A: Allocator>(alloc: A, image: &[u8]) -> Result<Code<A>, RegFault>
    ensures ok { IfOk result (λ code. IsImage code image.now) }
    ensures err { IfErr result (Condemns image.now) }
{
    match decode(alloc, image) {
        Ok(code) => Ok(code),
        Err(DecodeFault::NoMemory) => Err(RegFault::NoMemory),
        Err(fault) => Err(RegFault::Decode(fault)),
    }
}

/// Decodes and verifies an image.
///
/// # Errors
/// `Decode` with the decoder's fault, `Verify` with the verifier's, or `NoMemory` if an allocation fails.
pub fn judge<A: Allocator + Copy>(alloc: A, image: &[u8]) -> Result<Verified<A>, RegFault>
    ensures ok { IfOk result (IsProgramOf image.now) }
    ensures err { IfErr result (Condemns image.now) }
{
    let code = decoded(alloc, image)?;
    match verify(alloc, code) {
        Ok(program) => Ok(program),
        Err((VerifyFault::NoMemory, _code)) => Err(RegFault::NoMemory),
        Err((fault, _code)) => Err(RegFault::Verify(fault)),
    }
}
