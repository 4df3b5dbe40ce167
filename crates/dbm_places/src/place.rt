//! The folder of a database, which a run holds open, and the data files in it.

use crate::absent::is_special;
use crate::fault::{FilesFault, MovedFile};
use crate::links::resolve;
use crate::lock::WriteLocks;
use crate::names::{Names, folder_of, names_of};
use sdbm_saves::DiskFile;
use std::alloc::AllocError;
use std::fs::{self, File, Metadata};
use std::io::{self, ErrorKind, Seek, SeekFrom};
use std::os::fd::AsRawFd;
use std::os::unix::fs::{FileExt, MetadataExt};
use std::rt::Files;

// The number of bytes of a data file that are compared at once.
const PIECE: usize = 4096;

/// Identifies a file by its device and inode. No two files have the same ID at the same time. A removed file keeps its ID as long as it is
/// open.
#[derive(Clone, Copy, Debug, PartialEq, Eq)]
pub struct FileId {
    device: u64,
    number: u64,
}

impl FileId {
    /// Returns the ID of the file with this metadata.
    pub fn of(found: &Metadata) -> FileId {
        FileId {
            device: found.dev(),
            number: found.ino(),
        }
    }
}

/// The IDs of the data files that a run has read, each `None` if the file was missing.
#[derive(Clone, Copy, Debug, PartialEq, Eq)]
pub struct SeenFiles {
    pub pages: Option<FileId>,
    pub directory: Option<FileId>,
}

impl SeenFiles {
    /// The IDs if both data files are missing.
    pub fn none() -> SeenFiles {
        SeenFiles {
            pages: None,
            directory: None,
        }
    }

    /// Returns the IDs of the files that have the names of the data files now. Links are followed.
    ///
    /// # Errors
    /// `Moved` with the first file that cannot be looked up.
    pub fn look<R: Files>(rt: &R, names: &Names) -> Result<SeenFiles, FilesFault> {
        let Ok(pages) = id_of(rt, names.pages.as_str()) else {
            return Err(FilesFault::Moved(MovedFile::Pages));
        };
        let Ok(directory) = id_of(rt, names.directory.as_str()) else {
            return Err(FilesFault::Moved(MovedFile::Directory));
        };
        Ok(SeenFiles { pages, directory })
    }

    /// Returns `true` if a data file is missing.
    pub fn lacks_file(&self) -> bool {
        self.pages.is_none() || self.directory.is_none()
    }

    /// Returns these IDs, and for each file that was missing the ID of the created file. A file that existed keeps its ID, even if its name
    /// now refers to a different file.
    pub fn with_made(&self, made: &DataFiles) -> SeenFiles {
        let made = made.seen();
        SeenFiles {
            pages: self.pages.or(made.pages),
            directory: self.directory.or(made.directory),
        }
    }

    /// Checks that `others` are the same data files.
    ///
    /// # Errors
    /// `Moved` with the first data file that differs.
    pub fn must_be(&self, others: &SeenFiles) -> Result<(), FilesFault> {
        if self.pages != others.pages {
            return Err(FilesFault::Moved(MovedFile::Pages));
        }
        if self.directory != others.directory {
            return Err(FilesFault::Moved(MovedFile::Directory));
        }
        Ok(())
    }
}

/// The data files of a database, held open so that no other file gets one of their IDs.
#[derive(Drop)]
pub struct DataFiles {
    pages: Option<File>,
    directory: Option<File>,
}

impl DataFiles {
    /// No file is open.
    pub fn none() -> DataFiles {
        DataFiles {
            pages: None,
            directory: None,
        }
    }

    /// Opens the data files that are not open yet, for reading. Skips a file that is missing or cannot be opened. Skips a FIFO too, because
    /// opening it waits for its other end.
    pub fn open_more<R: Files<File = File>>(&mut self, rt: &R, names: &Names) {
        if self.pages.is_none() {
            self.pages = open_plain(rt, names.pages.as_str());
        }
        if self.directory.is_none() {
            self.directory = open_plain(rt, names.directory.as_str());
        }
    }

    /// Returns `true` if a data file is open and has these bytes at this offset.
    ///
    /// # Errors
    /// `ReadFile` if the file cannot be read.
    pub fn has(&self, part: DiskFile, at: usize, bytes: &[u8]) -> Result<bool, FilesFault> {
        match self.opened(part) {
            Some(file) => has_bytes(file, at as u64, bytes),
            None => Ok(false),
        }
    }

    /// Returns `true` if both data files are open and their names lead to them without a link, which may lead into another folder.
    pub fn are_named<R: Files>(&self, rt: &R, names: &Names) -> bool {
        match (&self.pages, &self.directory) {
            (Some(pages), Some(directory)) => {
                is_named(rt, names.pages.as_str(), pages)
                    && is_named(rt, names.directory.as_str(), directory)
            }
            _ => false,
        }
    }

    /// Returns `true` if a data file is open and has this length. Does not read its times.
    pub fn is_long(&self, part: DiskFile, len: usize) -> bool {
        let Some(file) = self.opened(part) else {
            return false;
        };
        match length_of(file) {
            Ok(length) => length == len as u64,
            Err(_) => false,
        }
    }

    fn opened(&self, part: DiskFile) -> Option<&File> {
        match part {
            DiskFile::Pages => self.pages.as_ref(),
            DiskFile::Directory => self.directory.as_ref(),
            DiskFile::Redo => None,
        }
    }

    /// Returns the IDs of these files.
    pub fn seen(&self) -> SeenFiles {
        SeenFiles {
            pages: id_of_opened(&self.pages),
            directory: id_of_opened(&self.directory),
        }
    }
}

// Opens a file for reading. Returns `None` if it is missing, cannot be opened, or is a FIFO or a device.
fn open_plain<R: Files<File = File>>(rt: &R, name: &str) -> Option<File> {
    if is_special(rt, name) {
        return None;
    }
    fs::open(rt, name).ok()
}

/// Returns the length of an open file. Moves its position to the end. `metadata` would read the times too, and then some systems write
/// the inode at the next sync.
pub fn length_of(file: &File) -> io::Result<u64> {
    let mut file = file;
    file.seek(SeekFrom::End(0))
}

/// Returns `true` if a file has these bytes at this offset.
///
/// # Errors
/// `ReadFile` if the file cannot be read.
pub fn has_bytes(file: &File, at: u64, bytes: &[u8]) -> Result<bool, FilesFault> {
    let mut at = at;
    for piece in bytes.chunks(PIECE) {
        let mut room = [0u8; PIECE];
        let read = &mut room[..piece.len().min(PIECE)];
        match file.read_exact_at(read, at) {
            Err(error) if error.kind() != ErrorKind::UnexpectedEof => {
                return Err(FilesFault::ReadFile);
            }
            Ok(()) if *read == *piece => (),
            _ => return Ok(false),
        }
        at = at.wrapping_add(PIECE as u64);
    }
    Ok(true)
}

// Returns the ID of an open file, or `None` if no file is open.
fn id_of_opened(file: &Option<File>) -> Option<FileId> {
    let Some(file) = file else {
        return None;
    };
    match file.metadata() {
        Ok(found) => Some(FileId::of(&found)),
        Err(_) => None,
    }
}

/// The files of a database, named through a folder that is held open. The names lead into that folder even if the folder is renamed. If the
/// system does not support this, the names are the ordinary ones.
#[derive(Drop)]
pub struct Place {
    pub names: Names,
    data: DataFiles,
    folder: Option<File>,
}

impl Place {
    /// Resolves a base (`resolve`) and opens its folder.
    ///
    /// # Errors
    /// The errors of `resolve`, and `NoMemory` if allocation fails.
    pub fn enter<R: Files<File = File> + AllocGlobal>(
        rt: &R,
        base: &str,
    ) -> Result<Place, FilesFault> {
        let base = resolve(rt, base)?;
        let base = base.as_str();
        let Some(folder) = open_folder(rt, base)? else {
            return plain_place(rt, base);
        };
        let number = folder.as_raw_fd();
        let inside = format!(in rt.alloc(); "/proc/self/fd/{number}")?;
        if !is_there(rt, inside.as_str(), &folder) {
            return plain_place(rt, base);
        }
        let last = last_of(base);
        let inside = format!(in rt.alloc(); "/proc/self/fd/{number}/{last}")?;
        Ok(Place {
            names: names_of(rt.alloc(), inside.as_str())?,
            data: DataFiles::none(),
            folder: Some(folder),
        })
    }

    /// Opens the data files that are not open yet. `must_be_open` checks later that these files were read.
    pub fn hold_data<R: Files<File = File>>(&mut self, rt: &R) {
        self.data.open_more(rt, &self.names);
    }

    /// Returns the metadata of the folder, whose times change if a name in it is created, removed or changed. Returns `None` if the folder
    /// is not held open, or the system does not report it.
    pub fn folder(&self) -> Option<Metadata> {
        match &self.folder {
            Some(folder) => folder.metadata().ok(),
            None => None,
        }
    }

    /// Checks that the data files that were read are the open ones.
    ///
    /// # Errors
    /// `Moved` with the first file that differs.
    pub fn must_be_open(&self, read: &SeenFiles) -> Result<(), FilesFault> {
        read.must_be(&self.data.seen())
    }

    /// Returns the base of the names: the text before `.pag`.
    pub fn base(&self) -> &str {
        base_of(&self.names)
    }

    /// Checks that the names of the data files have not become links to another base.
    ///
    /// # Errors
    /// `Moved` if a name has become a link to another base, or an invalid link. `NoMemory` if allocation fails.
    pub fn must_not_lead<R: Files + AllocGlobal>(&self, rt: &R) -> Result<(), FilesFault> {
        match resolve(rt, self.base()) {
            Ok(base) if base.as_str() == self.base() => Ok(()),
            Err(FilesFault::NoMemory) => Err(FilesFault::NoMemory),
            _ => Err(FilesFault::Moved(MovedFile::Pages)),
        }
    }

    /// Checks that the names still refer to the held locks and to the data files that were read.
    ///
    /// # Errors
    /// `Moved` with the first file whose name no longer refers to it.
    pub fn must_be_held<R: Files<File = File>>(
        &self,
        rt: &R,
        locks: &WriteLocks,
        seen: &SeenFiles,
    ) -> Result<(), FilesFault> {
        self.must_be_locked(rt, locks)?;
        seen.must_be(&SeenFiles::look(rt, &self.names)?)
    }

    /// Checks that the names still refer to the held locks. If not, another run may write.
    ///
    /// # Errors
    /// `Moved` with the first lock whose name no longer refers to it.
    pub fn must_be_locked<R: Files<File = File>>(
        &self,
        rt: &R,
        locks: &WriteLocks,
    ) -> Result<(), FilesFault> {
        if !is_named(rt, self.names.lock.as_str(), &locks.files) {
            return Err(FilesFault::Moved(MovedFile::Lock));
        }
        if !is_named(rt, self.names.writer.as_str(), &locks.writer) {
            return Err(FilesFault::Moved(MovedFile::Writer));
        }
        Ok(())
    }
}

// Returns the place of a base under its ordinary names.
fn plain_place<R: Files + AllocGlobal>(rt: &R, base: &str) -> Result<Place, FilesFault> {
    Ok(Place {
        names: names_of(rt.alloc(), base)?,
        data: DataFiles::none(),
        folder: None,
    })
}

// Opens the folder of a base. Returns `None` if it is missing, is not a folder, or may be searched but not read. Does not wait if the name
// refers to a FIFO.
fn open_folder<R: Files<File = File> + AllocGlobal>(
    rt: &R,
    base: &str,
) -> Result<Option<File>, AllocError> {
    let folder = folder_of(base);
    let name = format!(in rt.alloc(); "{folder}/.")?;
    Ok(fs::open(rt, name.as_str()).ok())
}

// Returns `true` if a name refers to this open file. Links are followed.
fn is_there<R: Files>(rt: &R, name: &str, file: &File) -> bool {
    match (fs::metadata(rt, name), file.metadata()) {
        (Ok(named), Ok(opened)) => FileId::of(&named) == FileId::of(&opened),
        _ => false,
    }
}

/// Returns `true` if a name refers to this open file. Links are not followed.
pub fn is_named<R: Files>(rt: &R, name: &str, file: &File) -> bool {
    match (fs::symlink_metadata(rt, name), file.metadata()) {
        (Ok(named), Ok(opened)) => FileId::of(&named) == FileId::of(&opened),
        _ => false,
    }
}

// Returns the ID of the file with this name, or `None` if the file is missing.
fn id_of<R: Files>(rt: &R, name: &str) -> Result<Option<FileId>, FilesFault> {
    match fs::metadata(rt, name) {
        Ok(found) => Ok(Some(FileId::of(&found))),
        Err(error) if error.kind() == ErrorKind::NotFound => Ok(None),
        Err(_) => Err(FilesFault::ReadFile),
    }
}

// Returns the text after the last `/` of a base.
fn last_of(base: &str) -> &str {
    match base.rsplit_once('/') {
        Some((_, last)) => last,
        None => base,
    }
}

/// Returns the base of these names: the text before `.pag`.
pub fn base_of(names: &Names) -> &str {
    match names.pages.as_str().strip_suffix(".pag") {
        Some(base) => base,
        None => "",
    }
}
