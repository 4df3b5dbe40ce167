//! Reads the file of a program.
ghost use Rattle.std.specs.Prelude.{◌≢◌, IfOk, IfErr};
ghost use Rattle.prog_registry.specs.declared.fault.RegFault.TheVariants.{NoMemory};
ghost use Rattle.dbm_reports.specs.Reports.{IsTextImage, IsFileImage, ReportsRefusal};
ghost use Rattle.dbm_reports.specs.Causes.{IsCaused, text_causes, file_causes};

use crate::fault::ReportFault;
use crate::notes::Notes;
use crate::report::Report;
use bpf_asm::{FaultKind, assemble};
use bpf_insn::encode;
use dbm_script::show_refusal;
use prog_registry::RegFault;
use sdbm_files::Image;
use std::alloc::{AllocError, Global};

/// Returns the image of a program, given its text.
///
/// # Errors
/// The errors of `file_image` for a text.
pub fn text_image(alloc: Global, file: &[u8]) -> Result<Vec<u8>, ReportFault>
    ensures ok { IfOk result (λ image. IsTextImage file.now image.items) }
    ensures fault { IfErr result (IsCaused (text_causes file.now)) }
{
    let Ok(text) = str::from_utf8(file) else {
        return Err(ReportFault::NotText);
    };
    let code = match assemble(alloc, text) {
        Ok(code) => code,
        Err(fault) if fault.kind == FaultKind::NoMemory => return Err(ReportFault::NoMemory),
        Err(fault) => return Err(ReportFault::Assemble(fault)),
    };
    Ok(encode(alloc, &code)?)
}

/// Returns the image in a program's file: the bytes of the file if it is an image, otherwise the image of its text.
///
/// # Errors
/// `NoMemory` if allocation fails. For a text also `NotText` if it is not UTF-8, and `Assemble` with the fault and the line if it is not a
/// program.
pub fn file_image(alloc: Global, file: &[u8], is_image: bool) -> Result<Vec<u8>, ReportFault>
    ensures ok { IfOk result (λ image. IsFileImage is_image file.now image.items) }
    ensures fault { IfErr result (IsCaused (file_causes is_image file.now)) }
{
    if is_image {
        return Ok(file.to_vec(alloc)?);
    }
    text_image(alloc, file)
}

/// Makes the report for a refused program image: a line with the reason, the status, and the database to save.
///
/// # Errors
/// `AllocError` if allocation fails, or if `fault` is `NoMemory`.
pub fn refused(
    alloc: Global,
    fault: RegFault,
    status: u8,
    database: Option<Image<Global>>,
) -> Result<Report, AllocError>
    ensures line { IfOk result (ReportsRefusal fault status database) }
    ensures told { IfOk result (λ report. fault ≢ NoMemory) }
{
    let notes = Notes {
        refuses_program: matches!(fault, RegFault::Verify(_)),
        ..Notes::none()
    };
    let mut text = Vec::new(alloc);
    show_refusal(alloc, fault, &mut text)?;
    text.push(b'\n')?;
    Ok(Report {
        text,
        status,
        database,
        notes,
    })
}
