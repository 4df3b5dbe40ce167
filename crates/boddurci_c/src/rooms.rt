//! Buffers borrowed from the caller.
ghost use Rattle.std.specs.Prelude.{◌≡◌, ℕ, List, Some};
ghost use Rattle.boddurci_c.specs.Calls.{IsCopied, IsToldAs, AreCopied};

use boddurci_handles::Status;
use std::alloc::Global;
use std::fmt::Display;

/// Copies items to the front of a buffer if they fit, and sets `len` to their number either way.
pub fn copy_out<T: Copy>(items: &[T], room: &mut [T], len: &mut usize) -> Status
    ensures { IsCopied items.now room.old room.new len.new result }
{
    *len = items.len();
    if items.len() > room.len() {
        return Status::ShortRoom;
    }
    room[..items.len()].copy_from_slice(items);
    Status::Done
}

/// Writes the text of a fault to the front of a buffer, like `copy_out`, and returns the status of the fault. If there is no
/// memory for the text, returns `NoMemory` and sets the length to 0.
pub fn tell<T: Display>(
    alloc: Global,
    fault: &T,
    status: Status,
    room: &mut [u8],
    len: &mut usize,
) -> Status
    ensures { (text : List ℕ) → T.output fault.now ≡ Some text → IsToldAs status text room.old room.new len.new result }
{
    let Ok(text) = fault.to_string(alloc) else {
        *len = 0;
        return Status::NoMemory;
    };
    copy_out(text.as_bytes(), room, len);
    status
}

/// Writes the bytes of two files to the front of two buffers if both fit, otherwise to neither.
pub fn copy_both(dir: &[u8], pag: &[u8], dir_room: &mut [u8], pag_room: &mut [u8]) -> Status
    ensures { AreCopied dir.now pag.now dir_room.old dir_room.new pag_room.old pag_room.new result }
{
    if dir.len() > dir_room.len() {
        return Status::ShortRoom;
    }
    if pag.len() > pag_room.len() {
        return Status::ShortRoom;
    }
    dir_room[..dir.len()].copy_from_slice(dir);
    pag_room[..pag.len()].copy_from_slice(pag);
    Status::Done
}
