//! Opens the database in the files, and checks the size of a database.
ghost use Rattle.std.specs.Prelude.{◌≡◌, false, IsTrue, IfOk, IfErr};
ghost use Rattle.sdbm_addr.specs.Database.{IsDatabase};
ghost use Rattle.dbm_reports.specs.Databases.{IsOpened, IsPagShort, IsPagTooLong, key_bytes_of, page_size_of};
ghost use Rattle.dbm_reports.specs.Causes.{IsCaused, opening_causes};

use crate::fault::ReportFault;
use dbm_args::Form;
use sdbm_addr::{KeyBytes, PageSize};
use sdbm_files::{Image, PAG_LIMIT, ReadPages};
use std::alloc::Global;

/// The contents of the files of a subcommand. A missing data file counts as empty.
#[derive(Drop)]
pub struct Given {
    pub dir: Vec<u8>,
    pub pag: ReadPages<Global>,
    pub file: Vec<u8>,
}

/// Returns the hash function that the options select.
pub fn key_bytes_of(form: Form) -> KeyBytes
    ensures { result ≡ key_bytes_of form.unsigned }
{
    if form.unsigned {
        KeyBytes::Unsigned
    } else {
        KeyBytes::Signed
    }
}

/// Returns the page size that the options select.
pub fn page_size_of(form: Form) -> PageSize
    ensures { result ≡ page_size_of form.wide }
{
    if form.wide {
        PageSize::Wide
    } else {
        PageSize::Small
    }
}

/// Opens the database in the files. The database shares each page with `given` until the page changes.
///
/// # Errors
/// `Open` if the files are not a database, and `NoMemory` if allocation fails.
pub fn open(alloc: Global, given: &Given, form: Form) -> Result<Image<Global>, ReportFault>
    ensures ok { IfOk result (IsOpened form given.now) }
    ensures fault { IfErr result (IsCaused (opening_causes form given.now)) }
{
    let (kind, size) = (key_bytes_of(form), page_size_of(form));
    let image = Image::open_read(alloc, given.dir.as_slice(), &given.pag, kind, size)?;
    Ok(image)
}

/// Returns `true` if a database is too large for the program: its `.pag` would be longer than `PAG_LIMIT`.
pub fn is_too_long(image: &Image<Global>) -> bool
    ensures long { IsTrue result → IsPagTooLong image.now }
    ensures short { result ≡ false → IsPagShort image.now }
    ensures database { IsDatabase image.now }
{
    image.pag_len() > PAG_LIMIT
}
