//! Writes the three files of a database for a save.
ghost use Rattle.std.specs.Prelude.{◌≡◌, IfErr};
ghost use Rattle.sdbm_saves.specs.declared.disk.DiskError.TheVariants.{Failed};

use crate::durable::{DurableNotes, Subject};
use crate::limit::{most_bytes, number_at};
use dbm_places::{
    FileId, Names, SeenFiles, Side, folder_of, is_like_pages, length_of, make, make_directory,
    make_redo, open_beside,
};
use sdbm_saves::{CallLog, DiskError, DiskFile, Host};
use std::fs::{self, File, OpenFile, OpenOptions};
use std::io::{self, ErrorKind};
use std::os::unix::fs::FileExt;
use std::rt::Files;

// The length of the header of a log, in bytes.
const LOG_HEADER: usize = 4096;

fn name_of(names: &Names, part: DiskFile) -> &str {
    match part {
        DiskFile::Pages => names.pages.as_str(),
        DiskFile::Directory => names.directory.as_str(),
        DiskFile::Redo => names.redo.as_str(),
    }
}

// A file during a save.
#[derive(Drop)]
struct SaveFile {
    file: Option<File>,
    // The file was synced, and has not been written since then.
    is_synced: bool,
    // This run has opened the file to write it.
    is_written: bool,
}

impl SaveFile {
    fn new() -> SaveFile {
        SaveFile {
            file: None,
            is_synced: false,
            is_written: false,
        }
    }

    // Syncs a file, unless it is missing, has not been written since its last sync, or is a `.dir` that is durable by its note.
    fn sync(&mut self, part: DiskFile, notes: &DurableNotes) -> io::Result<()> {
        if !self.is_synced
            && let Some(file) = &self.file
        {
            match part {
                DiskFile::Directory if !self.is_written => notes.sync(Subject::Directory, file)?,
                _ => file.sync_data()?,
            }
        }
        self.is_synced = true;
        Ok(())
    }
}

// The files of a database. Each file is opened when it is first written or synced, and stays open. A missing file is created. The files are
// written in place, so they keep their owner, permissions and links. A data file must be the file that was read: another file with its name
// is an error, even if the data file was missing then.
#[derive(Drop)]
struct OpenFiles<'a, R: Files<File = File>> {
    rt: &'a R,
    names: &'a Names,
    seen: SeenFiles,
    // The maximum length of a file that this process may write, in bytes. Writing past it raises SIGXFSZ.
    most: u64,
    pages: SaveFile,
    directory: SaveFile,
    redo: SaveFile,
    // Notes about the states in which `.dir` and the folder are durable.
    notes: DurableNotes,
    // This run has made the folder durable, and has created no file since then. The names that an earlier run created may not be durable.
    is_folder_kept: bool,
    // The redo file counts as missing, and is removed before a new one is created.
    is_redo_stale: bool,
    // This run has removed the redo file. It does not open a redo file that appears later.
    is_redo_gone: bool,
}

impl<'a, R: Files<File = File>> OpenFiles<'a, R> {
    fn slot(&mut self, part: DiskFile) -> &mut SaveFile {
        match part {
            DiskFile::Pages => &mut self.pages,
            DiskFile::Directory => &mut self.directory,
            DiskFile::Redo => &mut self.redo,
        }
    }

    // Returns a file that is open for writing. Opens it if it is not open, and creates it if it is missing.
    fn open(&mut self, part: DiskFile) -> io::Result<&mut File> {
        if self.slot(part).file.is_none() {
            let file = match self.open_there(part) {
                Err(error) if error.kind() == ErrorKind::NotFound => self.make(part)?,
                opened => opened?,
            };
            self.slot(part).file = Some(file);
        }
        let slot = self.slot(part);
        slot.is_synced = false;
        slot.is_written = true;
        match &mut slot.file {
            Some(file) => Ok(file),
            None => Err(io::Error::from(ErrorKind::NotFound)),
        }
    }

    // Opens an existing file for writing.
    fn open_there(&mut self, part: DiskFile) -> io::Result<File> {
        let name = name_of(self.names, part);
        match part {
            DiskFile::Pages => return open_seen(self.rt, name, self.seen.pages),
            DiskFile::Directory => return open_seen(self.rt, name, self.seen.directory),
            DiskFile::Redo => (),
        }
        if self.is_redo_stale {
            self.remove_redo()?;
        }
        if self.is_redo_gone {
            return Err(io::Error::from(ErrorKind::NotFound));
        }
        let pages = self.names.pages.as_str();
        Ok(open_beside(self.rt, Side::Redo, name, pages, true)?)
    }

    // Creates a missing file.
    fn make(&mut self, part: DiskFile) -> io::Result<File> {
        self.is_folder_kept = false;
        let name = name_of(self.names, part);
        let pages = self.names.pages.as_str();
        match part {
            DiskFile::Redo => make_redo(self.rt, name, pages),
            DiskFile::Directory => make_directory(self.rt, name, pages),
            DiskFile::Pages => make(self.rt, name, 0o666),
        }
    }

    // Checks that a file may have `len` bytes.
    fn must_fit(&self, len: usize) -> io::Result<()> {
        if len as u64 > self.most {
            return Err(io::Error::from(ErrorKind::FileTooLarge));
        }
        Ok(())
    }

    // Writes bytes, if the file may become that long. Bytes after the header of a log are a record, whose plan has the new lengths of both
    // data files. Those lengths are checked too, before the record is committed.
    fn write_in(&mut self, part: DiskFile, at: usize, bytes: &[u8]) -> io::Result<()> {
        self.must_fit(at.saturating_add(bytes.len()))?;
        if part == DiskFile::Redo && at >= LOG_HEADER {
            self.must_fit(number_at(bytes, 16))?;
            self.must_fit(number_at(bytes, 20))?;
        }
        self.open(part)?.write_all_at(bytes, at as u64)
    }

    fn set_len(&mut self, part: DiskFile, len: usize) -> io::Result<()> {
        if self.is_long(part, len)? {
            return Ok(());
        }
        self.must_fit(len)?;
        self.open(part)?.set_len(len as u64)
    }

    // Returns `true` if a file is open and has this length.
    fn is_long(&mut self, part: DiskFile, len: usize) -> io::Result<bool> {
        match &self.slot(part).file {
            Some(file) => Ok(length_of(file)? == len as u64),
            None => Ok(false),
        }
    }

    // Makes a file durable, and the folder with its name. A file that this run has not written is synced too, because an earlier run may have
    // been killed after a write, unless a note says that it is durable. A missing file needs no sync. The call also opens the file for
    // writing, so a missing permission is found before the commit.
    fn keep(&mut self, part: DiskFile) -> io::Result<()> {
        if self.slot(part).file.is_none() {
            match self.open_there(part) {
                Ok(file) => self.slot(part).file = Some(file),
                Err(error) if error.kind() == ErrorKind::NotFound => (),
                Err(error) => return Err(error),
            }
        }
        match part {
            DiskFile::Pages => self.pages.sync(part, &self.notes)?,
            DiskFile::Directory => self.directory.sync(part, &self.notes)?,
            DiskFile::Redo => self.redo.sync(part, &self.notes)?,
        }
        if !self.is_folder_kept {
            let folder = fs::open(self.rt, folder_of(name_of(self.names, part)))?;
            self.notes.sync(Subject::Folder, &folder)?;
            self.is_folder_kept = true;
        }
        Ok(())
    }

    fn remove_redo(&mut self) -> io::Result<()> {
        self.redo = SaveFile::new();
        self.is_redo_stale = false;
        self.is_redo_gone = true;
        match fs::remove_file(self.rt, self.names.redo.as_str()) {
            Err(error) if error.kind() != ErrorKind::NotFound => Err(error),
            _ => Ok(()),
        }
    }
}

// Opens a data file that was read, for writing. The error is `NotFound` if the file was missing and is still missing.
fn open_seen<R: Files<File = File>>(rt: &R, name: &str, seen: Option<FileId>) -> io::Result<File> {
    let file = match OpenOptions::new().read(true).write(true).open(rt, name) {
        Err(error) if error.kind() == ErrorKind::NotFound && seen.is_some() => return Err(moved()),
        opened => opened?,
    };
    if seen == Some(FileId::of(&file.metadata()?)) {
        return Ok(file);
    }
    Err(moved())
}

// Returns the error for a name that now refers to another file or to no file.
fn moved() -> io::Error {
    io::Error::from(ErrorKind::StaleNetworkFileHandle)
}

/// The files of a database on the system's disk, with a log of the calls.
#[derive(Drop)]
pub struct RealFiles<'a, R: Files<File = File>> {
    files: OpenFiles<'a, R>,
    pub(crate) log: CallLog,
}

impl<'a, R: Files<File = File> + AllocGlobal> RealFiles<'a, R> {
    ghost use Rattle.sdbm_saves.specs.CallLog.{acts};

    /// Returns the files with these names, without opening any. `seen` has the IDs of the data files that were read. A stale redo file
    /// counts as missing, and is removed before a new one is created.
    pub fn new(
        rt: &'a R,
        names: &'a Names,
        seen: SeenFiles,
        is_redo_stale: bool,
        log: CallLog,
    ) -> Self
        ensures { result.log ≡ log }
    {
        let most = most_bytes(rt);
        // Whether BASE.lock is accepted depends on `.pag`.
        let may_note = seen.pages.is_some();
        let notes = DurableNotes::open(rt, names, if may_note { most } else { 0 });
        RealFiles {
            files: OpenFiles {
                rt,
                names,
                seen,
                most,
                pages: SaveFile::new(),
                directory: SaveFile::new(),
                redo: SaveFile::new(),
                notes,
                is_folder_kept: false,
                is_redo_stale,
                is_redo_gone: false,
            },
            log,
        }
    }
}

// Converts the outcome of a system call.
fn told(outcome: io::Result<()>) -> Result<(), DiskError>
    ensures { IfErr result (λ error. error ≡ Failed) }
{
    match outcome {
        Ok(()) => Ok(()),
        Err(_) => Err(DiskError::Failed),
    }
}

// A call is logged before it is made, but a sync only after the file is durable.
impl<'a, R: Files<File = File>> Host for RealFiles<'a, R> {
    ghost use Rattle.sdbm_saves.specs.CallLog.{acts};

    ghost calls = { λ files. acts files.log };

    fn write_at(&mut self, file: DiskFile, at: usize, bytes: &[u8]) -> Result<(), DiskError> {
        self.log.note_write(file, at, bytes)?;
        told(self.files.write_in(file, at, bytes))
    }

    fn resize(&mut self, file: DiskFile, len: usize) -> Result<(), DiskError> {
        self.log.note_resize(file, len)?;
        told(self.files.set_len(file, len))
    }

    fn sync(&mut self, file: DiskFile) -> Result<(), DiskError> {
        told(self.files.keep(file))?;
        Ok(self.log.note_sync(file)?)
    }

    fn clear(&mut self) -> Result<(), DiskError> {
        self.log.note_clear()?;
        told(self.files.remove_redo())
    }

    fn keeps_redo(&self) -> bool {
        let names = self.files.names;
        is_like_pages(self.files.rt, names.redo.as_str(), names.pages.as_str())
    }
}

/// Removes the redo file of a save that failed before it wrote either data file. If the file cannot be removed, its commit byte decides: if
/// it is 1, the next writing run recovers the files; otherwise the next save reuses the redo file.
pub fn forget_redo<R: Files<File = File>>(rt: &R, names: &Names) {
    let _ = fs::remove_file(rt, names.redo.as_str());
}
