//! The names of the files that a run reads and writes, and of its locks.
ghost use Rattle.std.specs.Prelude.{◌≡◌, ◌++◌, IfOk, codes, map, string_bytes};
ghost use Rattle.dbm_places.specs.Names.{AreNames, files_read, shown_source};
ghost use Rattle.dbm_places.specs.Names as spec;

use crate::place::SeenFiles;
use sdbm_addr::PageSize;
use sdbm_files::ReadPages;
use std::alloc::{AllocError, Global};

/// Maximum size of a `.dir` file, in bytes.
pub const DIR_LIMIT: u64 = 268_435_456;

/// Maximum size of a program's file, in bytes.
pub const PROGRAM_LIMIT: u64 = 1_048_576;

/// The files of a run of the program.
#[derive(Clone, Copy)]
pub struct RunPlace<'a> {
    /// The database, if there is one. Its files are BASE.dir and BASE.pag.
    pub base: Option<&'a str>,
    /// The program's file, if there is one.
    pub file: Option<&'a str>,
    /// The run may write the files of the database.
    pub writes: bool,
    /// Maximum size of BASE.pag, in bytes.
    pub pages_limit: u64,
    /// The page size for which BASE.pag is read. A file with pages of the other size can be opened too, at the cost of a copy.
    pub page_size: PageSize,
}

/// The bytes of the files of a run. A missing file of a database has no bytes.
#[derive(Drop)]
pub struct FileBytes {
    pub directory: Vec<u8>,
    pub pages: ReadPages<Global>,
    pub program: Vec<u8>,
    /// The IDs of the data files that were read.
    pub seen: SeenFiles,
}

/// The kind of a file that is read.
#[derive(Clone, Copy, Debug, PartialEq, Eq)]
pub enum SourceKind {
    /// The directory of a database.
    Dir,
    /// The pages of a database.
    Pag,
    /// A program, as text or as its image.
    Program,
}

/// A file to be read.
#[derive(Drop)]
pub struct Source {
    pub kind: SourceKind,
    pub name: String,
    /// Maximum size, in bytes.
    pub limit: u64,
    /// The file may be missing, and then counts as empty.
    pub may_be_absent: bool,
}

/// The names of the files that are written for a database, and of its locks.
#[derive(Drop)]
pub struct Names {
    /// BASE.pag, the pages.
    pub pages: String,
    /// BASE.dir, the directory.
    pub directory: String,
    /// BASE.redo, the log of saves.
    pub redo: String,
    /// BASE.lock, which a run holds while it uses the files.
    pub lock: String,
    /// BASE.writer, which a run holds as long as it may change the database.
    pub writer: String,
}

/// Returns the files to be read for a run, in this order: BASE.dir and BASE.pag, which may be missing, and the program's file. Fails only
/// if allocation fails.
pub fn sources(alloc: Global, place: RunPlace<'_>) -> Result<Vec<Source>, AllocError>
    ensures { IfOk result (λ sources. map shown_source sources.items ≡ files_read place.entry) }
{
    let limit = place.pages_limit;
    match (place.base, place.file) {
        (Some(base), Some(file)) => {
            let dir = dir_source(alloc, base)?;
            let pag = pag_source(alloc, base, limit)?;
            Ok(vec![in alloc; dir, pag, program_source(alloc, file)?]?)
        }
        (Some(base), None) => {
            Ok(vec![in alloc; dir_source(alloc, base)?, pag_source(alloc, base, limit)?]?)
        }
        (None, Some(file)) => Ok(vec![in alloc; program_source(alloc, file)?]?),
        (None, None) => Ok(Vec::new(alloc)),
    }
}

fn dir_source(alloc: Global, base: &str) -> Result<Source, AllocError>
    ensures { IfOk result (λ source. shown_source source ≡ spec.dir_file base.now) }
{
    Ok(Source {
        kind: SourceKind::Dir,
        name: joined(alloc, base, ".dir")?,
        limit: DIR_LIMIT,
        may_be_absent: true,
    })
}

fn pag_source(alloc: Global, base: &str, limit: u64) -> Result<Source, AllocError>
    ensures { IfOk result (λ source. shown_source source ≡ spec.pag_file limit base.now) }
{
    Ok(Source {
        kind: SourceKind::Pag,
        name: joined(alloc, base, ".pag")?,
        limit,
        may_be_absent: true,
    })
}

fn program_source(alloc: Global, file: &str) -> Result<Source, AllocError>
    ensures { IfOk result (λ source. shown_source source ≡ spec.program_file file.now) }
{
    Ok(Source {
        kind: SourceKind::Program,
        name: String::from_str(alloc, file)?,
        limit: PROGRAM_LIMIT,
        may_be_absent: false,
    })
}

/// Returns the names of the files of a base: BASE.pag, BASE.dir, BASE.redo, BASE.lock and BASE.writer. Fails only if allocation fails.
pub fn names_of(alloc: Global, base: &str) -> Result<Names, AllocError>
    ensures { IfOk result (AreNames base.now) }
{
    Ok(Names {
        pages: joined(alloc, base, ".pag")?,
        directory: joined(alloc, base, ".dir")?,
        redo: joined(alloc, base, ".redo")?,
        lock: joined(alloc, base, ".lock")?,
        writer: joined(alloc, base, ".writer")?,
    })
}

/// Returns the folder that contains a file.
pub fn folder_of(name: &str) -> &str {
    match name.rsplit_once('/') {
        Some(("", _)) => "/",
        Some((folder, _)) => folder,
        None => ".",
    }
}

// Concatenates two texts.
fn joined(alloc: Global, head: &str, tail: &str) -> Result<String, AllocError>
    ensures { IfOk result (λ text. string_bytes text ≡ head.now ++ tail.now) }
{
    let mut text = String::from_str(alloc, head)?;
    text.push_str(tail)?;
    Ok(text)
}
