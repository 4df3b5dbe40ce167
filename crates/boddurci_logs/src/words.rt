//! Steps as words of 64 bits, five words a step.
ghost use Rattle.std.specs.Prelude.{◌≡◌, ◌∷◌, ◌⊎◌, [], IfOk};
ghost use Rattle.boddurci_handles.specs.declared.status.Status.TheVariants as status;
ghost use Rattle.boddurci_logs.specs.Answers.{IsOneOf};
ghost use Rattle.boddurci_logs.specs.Words.{number_of_file, words_of_step, words_of};
ghost use Rattle.sdbm_log.specs.declared.records.LogFault.TheVariants as fault;

use boddurci_handles::Status;
use sdbm_log::{LogFault, Step};
use sdbm_saves::DiskFile;
use std::alloc::{AllocError, Global};

/// The words of steps. The five words of a step are its kind, its file, its offset in the file, its offset in the buffer, and a length.
pub fn words_of(alloc: Global, steps: &[Step]) -> Result<Vec<u64>, AllocError>
    ensures { IfOk result (λ words. words.items ≡ words_of steps.now) }
{
    let mut words = Vec::new(alloc);
    for index in 0..steps.len() {
        words.extend_from_slice(&words_of_step(steps[index]))?;
    }
    Ok(words)
}

// The words of a step.
fn words_of_step(step: Step) -> [u64; 5]
    ensures { result ≡ words_of_step step }
{
    match step {
        Step::Write {
            file,
            at,
            from,
            len,
        } => [0, code_of(file), at as u64, from as u64, len as u64],
        Step::Zeros { file, at, len } => [1, code_of(file), at as u64, 0, len as u64],
        Step::Resize { file, len } => [2, code_of(file), 0, 0, len as u64],
        Step::Sync { file } => [3, code_of(file), 0, 0, 0],
    }
}

// The number of a file.
fn code_of(file: DiskFile) -> u64
    ensures { result ≡ number_of_file file }
{
    match file {
        DiskFile::Pages => 0,
        DiskFile::Directory => 1,
        DiskFile::Redo => 2,
    }
}

/// The status of a fault.
pub fn status_of(why: LogFault) -> Status
    ensures memory { why ≡ fault.NoMemory → result ≡ status.NoMemory }
    ensures foreign { why ≡ fault.Foreign → result ≡ status.BadFiles }
    ensures damaged { why ≡ fault.Damaged → result ≡ status.Stale }
    ensures only { IsOneOf (status.BadFiles ∷ status.Stale ∷ status.NoMemory ∷ []) result }
{
    match why {
        LogFault::NoMemory => Status::NoMemory,
        LogFault::Foreign => Status::BadFiles,
        LogFault::Damaged => Status::Stale,
    }
}
