// A log of the system calls on the three files.
ghost use Rattle.std.specs.Prelude.{◌≡◌, ◌++◌, ◌∷◌, [], length, OnOk, IfOk, OnErr};
ghost use Rattle.sdbm_saves.specs.Acts.{write, resize, sync, clear};

use crate::DiskFile;
use std::alloc::{AllocError, Global};
use std::mem;

/// The number of calls for which a new log has room: enough for the commit of a save that needs no new blocks of the disk.
const FIRST_CALLS: usize = 16;

// A call that was begun. A sync is logged only after it succeeded.
#[derive(Drop)]
pub enum Call {
    Write {
        file: DiskFile,
        at: usize,
        bytes: Vec<u8>,
    },
    Resize {
        file: DiskFile,
        len: usize,
    },
    Sync {
        file: DiskFile,
    },
    Clear,
}

/// A log of calls for a `Host`. A new log already has memory for the first `FIRST_CALLS` calls, and for the bytes of a write of one byte.
#[derive(Drop)]
pub struct CallLog {
    alloc: Global,
    calls: Vec<Call>,
    room: Vec<u8>,
}

impl CallLog {
    ghost use Rattle.sdbm_saves.specs.CallLog.{acts};

    /// Makes an empty log.
    ///
    /// # Errors
    ///
    /// `AllocError` if allocation fails.
    pub fn new(alloc: Global) -> Result<CallLog, AllocError>
        ensures { IfOk result (λ log. acts log ≡ []) }
    {
        Ok(CallLog {
            alloc,
            calls: Vec::with_capacity(alloc, FIRST_CALLS)?,
            room: Vec::with_capacity(alloc, 1)?,
        })
    }

    /// Logs a write.
    ///
    /// # Errors
    ///
    /// `AllocError` if allocation fails. The log is unchanged.
    pub fn note_write(&mut self, file: DiskFile, at: usize, bytes: &[u8]) -> Result<(), AllocError>
        ensures ok { OnOk result (acts self.new ≡ acts self.old ++ write file at bytes.now ∷ []) }
        ensures err { OnErr result (acts self.new ≡ acts self.old) }
    {
        let bytes = copy_of(self.alloc, &mut self.room, bytes)?;
        self.note(Call::Write { file, at, bytes })
    }

    /// Logs a change of length.
    ///
    /// # Errors
    ///
    /// `AllocError` if allocation fails. The log is unchanged.
    pub fn note_resize(&mut self, file: DiskFile, len: usize) -> Result<(), AllocError>
        ensures ok { OnOk result (acts self.new ≡ acts self.old ++ resize file len ∷ []) }
        ensures err { OnErr result (acts self.new ≡ acts self.old) }
    {
        self.note(Call::Resize { file, len })
    }

    /// Logs a sync.
    ///
    /// # Errors
    ///
    /// `AllocError` if allocation fails. The log is unchanged.
    pub fn note_sync(&mut self, file: DiskFile) -> Result<(), AllocError>
        ensures ok { OnOk result (acts self.new ≡ acts self.old ++ sync file ∷ []) }
        ensures err { OnErr result (acts self.new ≡ acts self.old) }
    {
        self.note(Call::Sync { file })
    }

    /// Logs the removal of the redo file.
    ///
    /// # Errors
    ///
    /// `AllocError` if allocation fails. The log is unchanged.
    pub fn note_clear(&mut self) -> Result<(), AllocError>
        ensures ok { OnOk result (acts self.new ≡ acts self.old ++ clear ∷ []) }
        ensures err { OnErr result (acts self.new ≡ acts self.old) }
    {
        self.note(Call::Clear)
    }

    fn note(&mut self, call: Call) -> Result<(), AllocError>
        ensures ok { OnOk result (self.new.calls.items ≡ self.old.calls.items ++ call ∷ []) }
        ensures err { OnErr result (self.new.calls.items ≡ self.old.calls.items) }
    {
        match self.calls.push(call) {
            Ok(()) => Ok(()),
            Err(e) => Err(e.into()),
        }
    }
}

// Copies the bytes. A single byte is copied into `room` without an allocation if `room` is still unused.
fn copy_of(alloc: Global, room: &mut Vec<u8>, bytes: &[u8]) -> Result<Vec<u8>, AllocError>
    ensures { IfOk result (λ copy. copy.items ≡ bytes.now) }
{
    if bytes.len() != 1 {
        return bytes.to_vec(alloc);
    }
    let mut copy = mem::replace(room, Vec::new(alloc));
    copy.clear();
    copy.extend_from_slice(bytes)?;
    Ok(copy)
}
