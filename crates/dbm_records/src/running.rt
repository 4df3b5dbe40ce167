//! Runs a program from a file on a database.
ghost use Rattle.std.specs.Prelude.{◌≡◌, ◌⊎◌, IfOk, IfErr, None, Some, slice_get, IsSome};
ghost use Rattle.bpf_verify.specs.Verified.{Accepted};
ghost use Rattle.store_cmd.specs.declared.Command.TheVariants as command;
ghost use Rattle.dbm_reports.specs.Causes.{IsCaused};
ghost use Rattle.dbm_reports.specs.Databases.{IsOpened};
ghost use Rattle.dbm_reports.specs.Reports.{ChangesFiles, IsFileImage};
ghost use Rattle.dbm_records.specs.Running.{RunsImage, program_causes, refusal_status};

use dbm_args::Form;
use dbm_reports::{Given, NOT_RUN, Report, ReportFault, change, file_image, open, refused};
use dbm_script::{Notation, RunAsk, RunWords, command_of_run};
use prog_registry::Registry;
use sdbm_files::Image;
use std::alloc::{AllocError, Global};

/// Opens the database in the files, then reads the program image from the program's file.
///
/// # Errors
/// The errors of `open`, then the errors of `file_image`.
pub fn database_and_image(
    alloc: Global,
    given: &Given,
    form: Form,
    is_image: bool,
) -> Result<(Image<Global>, Vec<u8>), ReportFault>
    ensures ok { IfOk result (λ r. IsOpened form given.now r.0 × IsFileImage is_image given.now.file.items r.1.items) }
    ensures fault { IfErr result (IsCaused (program_causes form given.now is_image)) }
{
    let database = open(alloc, given, form)?;
    let image = file_image(alloc, given.file.as_slice(), is_image)?;
    Ok((database, image))
}

/// Runs the program of an image on a database. If the program is refused, the report gives the reason.
///
/// # Errors
/// `AllocError` if allocation fails.
pub fn run_image(
    alloc: Global,
    notation: &Notation<Global>,
    database: Image<Global>,
    image: &[u8],
    words: RunWords<Global>,
    expect: Option<u64>,
) -> Result<Report, AllocError>
    ensures { IfOk result (RunsImage notation.now database words expect image.now) }
{
    let mut registry = Registry::new(alloc)?;
    match registry.submit(image) {
        Ok(id) => {
            let run = RunAsk {
                key: words.key,
                prog: id.0,
                arg: words.arg,
                blank: words.blank,
                now: words.now,
            };
            run_program(alloc, notation, database, &registry, run, expect)
        }
        Err(fault) => refused(alloc, fault, refusal_status(expect), Some(database)),
    }
}

// Returns the status if a program is refused: `NOT_RUN` if a code is expected, otherwise 1.
fn refusal_status(expect: Option<u64>) -> u8
    ensures { result ≡ refusal_status expect }
{
    match expect {
        None => 1,
        Some(_) => NOT_RUN,
    }
}

// Runs a program of a registry on a database.
fn run_program(
    alloc: Global,
    notation: &Notation<Global>,
    database: Image<Global>,
    registry: &Registry<Global>,
    run: RunAsk<Global>,
    expect: Option<u64>,
) -> Result<Report, AllocError>
    requires { IsSome (slice_get registry.now.programs run.prog) }
    ensures { IfOk result (λ report. (p : Accepted) × ((slice_get registry.now.programs run.prog ≡ Some p) × ChangesFiles notation.now database (command.Run run.key p.code run.arg run.blank run.now) expect report)) }
{
    let Some(command) = command_of_run(registry, run)? else {
        unreachable!()
    };
    change(alloc, notation, database, command, expect)
}
