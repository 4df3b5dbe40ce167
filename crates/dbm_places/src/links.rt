//! Databases whose data files are reached by symbolic links.
use crate::fault::FilesFault;
use crate::names::names_of;
use std::fs;
use std::io::ErrorKind;
use std::rt::Files;

/// Resolves a base. If BASE.pag and BASE.dir are symbolic links to the files of another base, returns that base, otherwise `base` itself.
/// So all runs use the same lock and the same redo file. Allocates the result.
///
/// # Errors
/// `ReadFile` if a link is dangling, if only one of the files is such a link, or if the links lead to different bases. `NoMemory` if
/// allocation fails.
pub fn resolve<R: Files + AllocGlobal>(rt: &R, base: &str) -> Result<String, FilesFault> {
    let (pages, directory) = bases_behind(rt, base)?;
    match (pages, directory) {
        (None, None) => Ok(String::from_str(rt.alloc(), base)?),
        (Some(pages), Some(directory)) => same_base(pages, &directory),
        (Some(_), None) | (None, Some(_)) => Err(FilesFault::ReadFile),
    }
}

// Returns the bases to which BASE.pag and BASE.dir lead, each `None` if the file is not a link to a file of a base.
fn bases_behind<R: Files + AllocGlobal>(
    rt: &R,
    base: &str,
) -> Result<(Option<String>, Option<String>), FilesFault> {
    let names = names_of(rt.alloc(), base)?;
    let pages = base_behind(rt, names.pages.as_str(), ".pag")?;
    let directory = base_behind(rt, names.directory.as_str(), ".dir")?;
    Ok((pages, directory))
}

// Returns the base to which both links lead. Fails with `ReadFile` if they lead to different bases.
fn same_base(pages: String, directory: &String) -> Result<String, FilesFault> {
    if pages.as_str() == directory.as_str() {
        Ok(pages)
    } else {
        Err(FilesFault::ReadFile)
    }
}

// Returns the base to which a link leads, if its target ends in `end`. Returns `None` if the name is not a link, or if the target has a
// different ending.
fn base_behind<R: Files + AllocGlobal>(
    rt: &R,
    name: &str,
    end: &str,
) -> Result<Option<String>, FilesFault> {
    match fs::symlink_metadata(rt, name) {
        Ok(found) if found.is_symlink() => (),
        _ => return Ok(None),
    }
    let path = match fs::canonicalize(rt, name) {
        Ok(path) => path,
        Err(error) if error.kind() == ErrorKind::OutOfMemory => return Err(FilesFault::NoMemory),
        Err(_) => return Err(FilesFault::ReadFile),
    };
    match path.as_str().strip_suffix(end) {
        Some(base) => Ok(Some(String::from_str(rt.alloc(), base)?)),
        None => Ok(None),
    }
}
