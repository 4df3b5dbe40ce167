//! The verdict on the program in a file.
ghost use Rattle.std.specs.Prelude.{◌≡◌, IfOk, IfErr};
ghost use Rattle.dbm_reports.specs.Causes.{IsCaused, file_causes};
ghost use Rattle.dbm_programs.specs.Judging.{Judges, Verifies, accepted_line};

use dbm_reports::{Report, ReportFault, file_image, printed, refused};
use itoa::Buffer;
use prog_registry::Registry;
use std::alloc::{AllocError, Allocator, Global};

/// Reports the verdict on the program in a file: accepted, or refused with the reason. A refusal has the same text as the answer to a
/// script line that submits the image.
///
/// # Errors
/// The errors of `file_image`, and `NoMemory` if allocation fails.
pub fn verify_file(alloc: Global, file: &[u8], is_image: bool) -> Result<Report, ReportFault>
    ensures ok { IfOk result (Verifies is_image file.now) }
    ensures fault { IfErr result (IsCaused (file_causes is_image file.now)) }
{
    let image = file_image(alloc, file, is_image)?;
    Ok(judge_image(alloc, image.as_slice())?)
}

/// Reports the verdict on a program image.
///
/// # Errors
/// `AllocError` if allocation fails.
pub fn judge_image(alloc: Global, image: &[u8]) -> Result<Report, AllocError>
    ensures { IfOk result (Judges image.now) }
{
    let mut registry = Registry::new(alloc)?;
    match registry.submit(image) {
        Ok(_) => Ok(printed(show_accepted(alloc, image.len() / 8)?)),
        Err(fault) => refused(alloc, fault, 1, None),
    }
}

/// Returns the line `accepted UNITS`.
///
/// # Errors
/// `AllocError` if allocation fails.
pub fn show_accepted<A: Allocator + Copy>(alloc: A, units: usize) -> Result<Vec<u8, A>, AllocError>
    ensures { IfOk result (λ text. text.items ≡ accepted_line units) }
{
    let mut text = Vec::new(alloc);
    text.extend_from_slice(b"accepted ")?;
    let mut digits = Buffer::new();
    text.extend_from_slice(digits.format(units).as_bytes())?;
    text.push(b'\n')?;
    Ok(text)
}
