//! Reads a `.pag` in pieces.
ghost use Rattle.std.specs.Prelude.{◌≡◌, None, IfErr, OnOk};
ghost use Rattle.boddurci_handles.specs.Pieces.{DeniesPiece, MayFollow, ReadsPiece};

use crate::reading::Reading;
use crate::status::Status;
use sdbm_addr::PageSize;
use sdbm_files::ReadPages;
use std::alloc::Global;

// The maximum number of bytes of all pieces together.
const LONGEST: u64 = i64::MAX as u64;

/// The pieces read from a `.pag`.
#[derive(Drop)]
pub struct Pieces {
    pub pages: ReadPages<Global>,
}

/// Reads the next piece of a `.pag`. The first piece sets the page size; later pieces do not change it.
///
/// Returns `BadFiles` if the earlier pieces end inside a page, and `TooLong` if the total would be 2^63 bytes or more; both
/// leave the reading unchanged. If memory runs out, returns `NoMemory`, and the reading has no pieces.
pub fn read_piece(alloc: Global, reading: &mut Reading, size: PageSize, piece: &[u8]) -> Status
    ensures { ReadsPiece size piece.now reading.old.read reading.new.read result }
{
    let Some(mut pieces) = reading.take(alloc) else {
        return read_first(alloc, reading, size, piece);
    };
    let read = &mut *pieces;
    if let Err(status) = may_follow(&read.pages, piece) {
        reading.put(pieces);
        return status;
    }
    match read.pages.push(piece) {
        Ok(()) => {
            reading.put(pieces);
            Status::Done
        }
        Err(_) => Status::NoMemory,
    }
}

// Reads the first piece.
fn read_first(alloc: Global, reading: &mut Reading, size: PageSize, piece: &[u8]) -> Status
    requires { reading.old.read ≡ None }
    ensures { ReadsPiece size piece.now reading.old.read reading.new.read result }
{
    let mut pages = ReadPages::new(alloc, size);
    let Ok(()) = pages.push(piece) else {
        return Status::NoMemory;
    };
    match Box::new(alloc, Pieces { pages }) {
        Ok(pieces) => {
            reading.put(pieces);
            Status::Done
        }
        Err(_) => Status::NoMemory,
    }
}

// Checks that a piece may follow the earlier ones.
fn may_follow(pages: &ReadPages<Global>, piece: &[u8]) -> Result<(), Status>
    ensures ok { OnOk result (MayFollow pages.now piece.now) }
    ensures err { IfErr result (DeniesPiece pages.now piece.now) }
{
    if !pages.is_whole() {
        return Err(Status::BadFiles);
    }
    let total = (pages.len() as u64).saturating_add(piece.len() as u64);
    if total > LONGEST {
        return Err(Status::TooLong);
    }
    Ok(())
}
