//! Checks, opens and creates the redo file and the locks next to a database. Links are not followed.
ghost use Rattle.std.specs.Prelude.{◌≡◌, ◌↔◌, IsTrue};
ghost use Rattle.dbm_places.specs.Sides.{TakesRedo, TakesLock, IsOwned, IsNoWider, others_write, group_writes};

use crate::fault::FilesFault;
use crate::place::FileId;
use std::fs::{self, File, Metadata, OpenFile, OpenOptions, Permissions};
use std::io::{self, ErrorKind};
use std::os::unix::fs::{MetadataExt, OpenOptionsExt, PermissionsExt, fchown};
use std::rt::Files;

/// Maximum number of attempts to open a file, if its name refers to a different file after each check.
const MOST_LOOKS: usize = 10;

/// A kind of file next to a database.
#[derive(Clone, Copy, Debug, PartialEq, Eq)]
pub enum Side {
    /// The redo file, whose changes are applied to both data files.
    Redo,
    /// A lock. Its bytes are only notes, without which nothing is lost.
    Lock,
}

/// The owner, the group and the permissions of a file.
#[derive(Clone, Copy)]
pub struct Standing {
    /// A regular file with at most one name. An open file may have lost its name.
    pub is_plain: bool,
    pub owner: u32,
    pub group: u32,
    /// The permission bits, as in `chmod`.
    pub mode: u32,
}

/// The reason why a file next to a database is not opened.
#[derive(Drop)]
pub enum SideFault {
    /// It is missing.
    Absent,
    /// It is not accepted: another user could have planted it.
    Unsafe,
    /// The system does not open it.
    Refused(io::Error),
}

impl From<io::Error> for SideFault {
    fn from(error: io::Error) -> SideFault {
        if error.kind() == ErrorKind::NotFound {
            return SideFault::Absent;
        }
        SideFault::Refused(error)
    }
}

impl From<SideFault> for io::Error {
    fn from(fault: SideFault) -> io::Error {
        match fault {
            SideFault::Absent => io::Error::from(ErrorKind::NotFound),
            SideFault::Unsafe => io::Error::from(ErrorKind::PermissionDenied),
            SideFault::Refused(error) => error,
        }
    }
}

// Returns `true` if all users may write a file.
fn others_write(mode: u32) -> bool
    ensures { IsTrue result ↔ others_write mode }
{
    mode / 2 % 2 == 1
}

// Returns `true` if the group of a file may write it.
fn group_writes(mode: u32) -> bool
    ensures { IsTrue result ↔ group_writes mode }
{
    mode / 16 % 2 == 1
}

// Returns `true` if, by the permissions, every user who may write the file may also write the pages. If the pages do not exist, only the
// owner may be allowed to write the file.
fn is_no_wider(side: Standing, pages: Option<Standing>) -> bool
    ensures { IsTrue result ↔ IsNoWider side pages }
{
    let Some(pages) = pages else {
        return !others_write(side.mode) && !group_writes(side.mode);
    };
    if others_write(pages.mode) {
        return true;
    }
    !others_write(side.mode)
        && (!group_writes(side.mode) || group_writes(pages.mode) && side.group == pages.group)
}

// Returns `true` if a file is owned by this user, by root, or by the owner of the pages.
fn is_owned(side: Standing, pages: Option<Standing>, user: Option<u32>) -> bool
    ensures { IsTrue result ↔ IsOwned side pages user }
{
    if side.owner == 0 || user == Some(side.owner) {
        return true;
    }
    match pages {
        Some(pages) => pages.owner == side.owner,
        None => false,
    }
}

/// Returns `true` if a redo file is accepted. It must be a plain file owned by this user, by root, or by the owner of the pages. Every user
/// who may write it must also be allowed to write the pages.
pub fn takes_redo(side: Standing, pages: Option<Standing>, user: Option<u32>) -> bool
    ensures { IsTrue result ↔ TakesRedo side pages user }
{
    side.is_plain && is_owned(side, pages, user) && is_no_wider(side, pages)
}

/// Returns `true` if a lock is accepted. It must be a plain file whose owner may write the pages, as far as owners and permissions show.
/// Every user who may write it must also be allowed to write the pages. If the pages do not exist yet, it must be a plain file owned by
/// this user or by root; if the system does not report the current user, any owner is accepted.
pub fn takes_lock(side: Standing, pages: Option<Standing>, user: Option<u32>) -> bool
    ensures { IsTrue result ↔ TakesLock side pages user }
{
    let Some(found) = pages else {
        return side.is_plain && (is_owned(side, None, user) || user.is_none());
    };
    let is_of_writers = is_owned(side, pages, user)
        || others_write(found.mode)
        || group_writes(found.mode) && side.group == found.group;
    side.is_plain && is_of_writers && is_no_wider(side, pages)
}

/// Returns the standing of a file with this metadata.
pub fn standing_of(found: &Metadata) -> Standing {
    Standing {
        is_plain: found.is_file() && found.nlink() <= 1,
        owner: found.uid(),
        group: found.gid(),
        mode: found.mode() % 0o10000,
    }
}

// Returns the standing of the pages, if they exist. Links are followed.
fn pages_standing<R: Files>(rt: &R, pages: &str) -> io::Result<Option<Standing>> {
    match fs::metadata(rt, pages) {
        Ok(found) => Ok(Some(standing_of(&found))),
        Err(error) if error.kind() == ErrorKind::NotFound => Ok(None),
        Err(error) => Err(error),
    }
}

// Returns the ID of the user for whom this run opens files, if the system reports it.
fn own_user<R: Files>(rt: &R) -> Option<u32> {
    match fs::metadata(rt, "/proc/self") {
        Ok(found) => Some(found.uid()),
        Err(_) => None,
    }
}

fn takes(side: Side, found: Standing, pages: Option<Standing>, user: Option<u32>) -> bool {
    match side {
        Side::Redo => takes_redo(found, pages, user),
        Side::Lock => takes_lock(found, pages, user),
    }
}

/// Returns the standing of a file next to a database, if the file exists and is not accepted.
pub fn doubt_of<R: Files>(rt: &R, side: Side, name: &str, pages: &str) -> Option<Standing> {
    let found = match fs::symlink_metadata(rt, name) {
        Ok(found) => standing_of(&found),
        Err(_) => return None,
    };
    let beside = pages_standing(rt, pages).unwrap_or(None);
    if takes(side, found, beside, own_user(rt)) {
        return None;
    }
    Some(found)
}

/// Opens an existing file next to a database for reading, and also for writing if `writes` is true. The file is checked before it is
/// opened, so that no link is followed and no call waits for the other end of a pipe. The open file is checked again, since the name may
/// refer to a different file by then; the call then tries again. Fails with `Unsafe` if the file is not accepted.
pub fn open_beside<R: Files<File = File>>(
    rt: &R,
    side: Side,
    name: &str,
    pages: &str,
    writes: bool,
) -> Result<File, SideFault> {
    for _ in 0..MOST_LOOKS {
        let seen = fs::symlink_metadata(rt, name)?;
        let beside = pages_standing(rt, pages)?;
        let user = own_user(rt);
        if !takes(side, standing_of(&seen), beside, user) {
            return Err(SideFault::Unsafe);
        }
        let file = OpenOptions::new().read(true).write(writes).open(rt, name)?;
        let opened = file.metadata()?;
        if FileId::of(&opened) == FileId::of(&seen) {
            if takes(side, standing_of(&opened), beside, user) {
                return Ok(file);
            }
            return Err(SideFault::Unsafe);
        }
    }
    Err(SideFault::Unsafe)
}

/// Creates a redo file, which must not exist. It will contain pairs of the database, so at first only this user may read it. Then it gets
/// the owner, the group and the permissions of the pages, as far as the system lets this user set them. If the pages do not exist yet, all
/// users who will be able to read them may read the redo file.
pub fn make_redo<R: Files<File = File>>(rt: &R, name: &str, pages: &str) -> io::Result<File> {
    match pages_standing(rt, pages)? {
        Some(like) => {
            let file = make(rt, name, 0o600)?;
            be_like(&file, like)?;
            Ok(file)
        }
        None => make(rt, name, 0o644),
    }
}

/// Returns `true` if a redo file has the owner, the group and the permissions of the pages. If not, other users who may write the pages may
/// be unable to use it.
pub fn is_like_pages<R: Files>(rt: &R, name: &str, pages: &str) -> bool {
    let Ok(found) = fs::symlink_metadata(rt, name) else {
        return false;
    };
    let Ok(Some(like)) = pages_standing(rt, pages) else {
        return false;
    };
    let found = standing_of(&found);
    found.owner == like.owner
        && found.group == like.group
        && found.mode % 0o1000 == like.mode % 0o1000
}

/// Creates the directory of a database, which must not exist. If the pages exist, it gets their owner, group and permissions, as far as the
/// system lets this user set them. Otherwise the umask determines the permissions.
pub fn make_directory<R: Files<File = File>>(rt: &R, name: &str, pages: &str) -> io::Result<File> {
    match pages_standing(rt, pages)? {
        Some(like) => {
            let file = make(rt, name, like.mode % 0o1000)?;
            be_like(&file, like)?;
            Ok(file)
        }
        None => make(rt, name, 0o666),
    }
}

// Gives a file the owner, the group and the permissions of `like`, as far as the system lets this user set them.
fn be_like(file: &File, like: Standing) -> io::Result<()> {
    let given = give(file, like)?;
    file.set_permissions(Permissions::from_mode(mode_like(given, like)))
}

// Returns the permissions of `like` for a file with the standing `given`. If the groups differ, the group gets no permissions.
fn mode_like(given: Standing, like: Standing) -> u32 {
    let mode = like.mode % 0o1000;
    if given.group == like.group {
        mode
    } else {
        mode - mode / 8 % 8 * 8
    }
}

/// Creates an empty lock file, which must not exist. All users who may use the pages can take the lock: if the file cannot get the owner
/// and the group of the pages, all users may read it. Until its permissions are set, only this user may write it. The call fails if this
/// user may not write the pages.
pub fn make_lock<R: Files<File = File>>(rt: &R, name: &str, pages: &str) -> io::Result<File> {
    match OpenOptions::new().read(true).write(true).open(rt, pages) {
        Err(error) if error.kind() != ErrorKind::NotFound => return Err(error),
        _ => (),
    }
    let file = make(rt, name, 0o644)?;
    if let Some(like) = pages_standing(rt, pages)? {
        let given = give(&file, like)?;
        let mode = mode_like(given, like);
        let is_given = given.owner == like.owner && given.group == like.group;
        let mode = if is_given { mode } else { with_readers(mode) };
        file.set_permissions(Permissions::from_mode(mode))?;
    }
    Ok(file)
}

// Adds the permission to read for all users.
fn with_readers(mode: u32) -> u32 {
    if mode / 4 % 2 == 1 { mode } else { mode + 4 }
}

/// Creates a new file, whose permissions are `mode` without the bits of the umask. The call fails if the name exists, even as a link.
pub fn make<R: Files<File = File>>(rt: &R, name: &str, mode: u32) -> io::Result<File> {
    OpenOptions::new()
        .read(true)
        .write(true)
        .create_new(true)
        .mode(mode)
        .open(rt, name)
}

// Sets the owner and the group, each if the system lets this user set it. Returns the resulting standing.
fn give(file: &File, like: Standing) -> io::Result<Standing> {
    let own = standing_of(&file.metadata()?);
    if own.owner != like.owner {
        let _ = fchown(file, Some(like.owner), None);
    }
    if own.group != like.group {
        let _ = fchown(file, None, Some(like.group));
    }
    Ok(standing_of(&file.metadata()?))
}

/// Converts a fault of a file next to a database. `Unsafe` stays `Unsafe`, and any other fault becomes `other`.
pub fn side_fault(fault: &SideFault, other: FilesFault) -> FilesFault {
    match fault {
        SideFault::Unsafe => FilesFault::Unsafe,
        SideFault::Absent | SideFault::Refused(_) => other,
    }
}
