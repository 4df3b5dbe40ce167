//! Lines that submit program images.
ghost use Rattle.std.specs.Prelude.{◌≡◌, ◌≢◌, ◌++◌, ℕ, OnOk, Option, Some, codes, decimal};
ghost use Rattle.prog_registry.specs.FaultText.{fault_text};
ghost use Rattle.prog_registry.specs.declared.fault.RegFault.TheVariants.{NoMemory};
ghost use Rattle.dbm_script.specs.Images.{ImageVerdict, AnswersImage};
ghost use Rattle.dbm_script.specs.Script.{AddsBytes};

use itoa::Buffer;
use prog_registry::{RegFault, Registry};
use std::alloc::{AllocError, Allocator};

/// Submits an image to a registry. Appends the answer to `text`: the number of its program, or the reason for the refusal.
///
/// # Errors
/// `AllocError` if allocation fails. On error, discard `text`: it may be partial.
pub fn answer_image<A: Allocator + Copy>(
    alloc: A,
    registry: &mut Registry<A>,
    image: &[u8],
    text: &mut Vec<u8, A>,
) -> Result<(), AllocError>
    ensures { OnOk result (AddsBytes text.old.items text.new.items (λ added.
        (told : ImageVerdict) × AnswersImage registry.old.programs image.now told added registry.new.programs)) }
{
    match registry.submit(image) {
        Ok(id) => show_number(id.0, text),
        Err(fault) => show_refusal(alloc, fault, text),
    }
}

// Appends the number of a program to `text`.
fn show_number<A: Allocator>(id: u32, text: &mut Vec<u8, A>) -> Result<(), AllocError>
    ensures { OnOk result (text.new.items ≡ text.old.items ++ (codes "program " ++ decimal id)) }
{
    text.extend_from_slice(b"program ")?;
    let mut digits = Buffer::new();
    text.extend_from_slice(digits.format(id).as_bytes())
}

/// Appends the reason for refusing a program image to `text`.
///
/// # Errors
/// `AllocError` if allocation fails, or if `fault` is `NoMemory`. On error, discard `text`: it may be partial.
pub fn show_refusal<A: Allocator + Copy>(
    alloc: A,
    fault: RegFault,
    text: &mut Vec<u8, A>,
) -> Result<(), AllocError>
    ensures text { OnOk result (text.new.items ≡ text.old.items ++ (codes "refused " ++ fault_text fault)) }
    ensures told { OnOk result (fault ≢ NoMemory) }
{
    if fault == RegFault::NoMemory {
        return Err(AllocError);
    }
    let refused = format!(in alloc; "refused {fault}")?;
    text.extend_from_slice(refused.as_bytes())
}
