//! The database's two files.

use boddurci::{Image, KeyBytes, MemSink, PageSize};
use std::alloc::Global;
use std::fs;
use std::rt::Files;

const DIR: &str = "visits.dir";

const PAG: &str = "visits.pag";

/// Reads the database from both files.
pub fn read_image<R: Files + AllocGlobal>(rt: &R) -> Result<Image<Global>, &'static str> {
    let dir = fs::read(rt, DIR).map_err(|_| "visits.dir cannot be read")?;
    let pag = fs::read(rt, PAG).map_err(|_| "visits.pag cannot be read")?;
    let (dir, pag) = (dir.as_slice(), pag.as_slice());
    match Image::open(rt.alloc(), dir, pag, KeyBytes::Signed, PageSize::Small) {
        Ok(image) => Ok(image),
        Err(_) => Err("the files are no database"),
    }
}

/// Writes both files whole. A crash may corrupt them: a service that must survive a crash saves as `dbm` does, with a redo
/// file, by the steps of `sdbm_saves`.
pub fn write_image<R: Files + AllocGlobal>(
    rt: &R,
    image: &Image<Global>,
) -> Result<(), &'static str> {
    let (mut dir, mut pag) = (MemSink::new(rt.alloc()), MemSink::new(rt.alloc()));
    if image.write(&mut dir, &mut pag).is_err() {
        return Err("no memory for the files");
    }
    fs::write(rt, PAG, pag.bytes()).map_err(|_| "visits.pag cannot be written")?;
    fs::write(rt, DIR, dir.bytes()).map_err(|_| "visits.dir cannot be written")
}
