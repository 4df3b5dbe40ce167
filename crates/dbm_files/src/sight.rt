//! What a session has seen of its files. This decides how closely its next save looks at them.
ghost use Rattle.std.specs.Prelude.{◌≤◌, length};
ghost use Rattle.sdbm_saves.specs.Redo.{span_of, IsPlan};

use crate::states::{Changed, DataStates, is_settled, names_changed};
use dbm_places::{DataFiles, FilesFault, Place};
use sdbm_addr::PageSize;
use sdbm_saves::{Contents, DiskFile, file_of, number, rest_of};
use std::fs::File;
use std::rt::Files;
use std::time::{Clock, Duration, Instant};

// A save within this many milliseconds after a look at the files does not look again.
const RECENT: u64 = 10;

// Two changes within this many milliseconds may leave the same time.
const SETTLED: u64 = 20;

/// A look at the names of the files, between two saves.
#[derive(Clone, Copy)]
pub(crate) struct Look {
    at: Instant,
    // The time at which a name in the folder had last changed.
    names: Changed,
}

impl Look {
    /// Begins a look. Returns `None` if the look will not count: the folder has just changed, or its times are not known or not fine enough
    /// to show the next change.
    pub(crate) fn begin<R: Clock>(rt: &R, place: &Place) -> Option<Look> {
        let at = Instant::now(rt).ok()?;
        let names = names_changed(place)?;
        let now = rt.since_1970().ok()?;
        if !is_settled(names, now, Duration::from_millis(SETTLED)) {
            return None;
        }
        Some(Look { at, names })
    }

    // Returns `true` if some milliseconds have not passed since the look, and no name in the folder has changed.
    fn is_recent<R: Clock>(self, rt: &R, place: &Place) -> bool {
        match self.at.elapsed(rt) {
            Ok(passed) if passed < Duration::from_millis(RECENT) => {
                names_changed(place) == Some(self.names)
            }
            _ => false,
        }
    }
}

/// What a session saw when it last looked at its data files.
#[derive(Clone, Copy)]
pub(crate) struct Sight {
    states: DataStates,
    // The last look. `None` if the next save has to look.
    look: Option<Look>,
    // Only the bytes of the data files tell whether another program has written them, since the session has written them too.
    by_bytes: bool,
}

impl Sight {
    /// The sight of a session that has read its data files in these states.
    pub(crate) fn of(states: DataStates) -> Sight {
        Sight {
            states,
            look: None,
            by_bytes: false,
        }
    }

    /// Returns `true` if the session has just looked at its files. A save then needs no look if it `knows` their bytes.
    pub(crate) fn is_recent<R: Clock>(self, rt: &R, place: &Place) -> bool {
        match self.look {
            Some(look) => look.is_recent(rt, place),
            None => false,
        }
    }

    /// Notes a save without a look.
    pub(crate) fn note_save(&mut self) {
        self.by_bytes = true;
    }

    /// Notes that another program has written a data file whose bytes are no longer in memory. The next look then counts as one that finds
    /// a write.
    pub(crate) fn refuse(&mut self) {
        self.by_bytes = true;
        self.look = None;
    }

    /// Looks at the data files after a save. If their bytes are in memory and they are held open (`by_bytes`), the next look compares the
    /// bytes, since another program may have written between the session's own writes and this look. Then later saves may do without a
    /// look, if there is a `look` that was begun before the names were checked.
    pub(crate) fn renew<R: Files<File = File>>(
        &mut self,
        rt: &R,
        place: &Place,
        look: Option<Look>,
        by_bytes: bool,
    ) {
        self.states = DataStates::look(rt, &place.names);
        self.by_bytes = by_bytes;
        self.look = if by_bytes { look } else { None };
    }

    /// Returns `true` if another program has written a data file since the last look, given their states now. `kept` has the bytes that the
    /// session has last saved, or `None` if it does not know them; then any save since the last look counts as a write of another program.
    ///
    /// # Errors
    /// `ReadFile` if a data file cannot be read.
    pub(crate) fn is_stale(
        self,
        files: &DataFiles,
        found: DataStates,
        kept: Option<Contents<'_>>,
    ) -> Result<bool, FilesFault> {
        if !self.by_bytes {
            return Ok(found.are_written_since(self.states));
        }
        match kept {
            Some(kept) if found.are_like(self.states) => Ok(!have_bytes(files, kept)?),
            _ => Ok(true),
        }
    }

    /// Returns `true` if the owner, the group or the mode of a data file has changed since the last look. If the next look does not compare
    /// bytes, any other change of an inode counts too.
    pub(crate) fn is_other(self, found: DataStates) -> bool {
        if self.by_bytes {
            return !found.have_rights_of(self.states);
        }
        found != self.states
    }
}

/// Returns `true` if the data files are open and have these bytes.
///
/// # Errors
/// `ReadFile` if a data file cannot be read.
pub(crate) fn have_bytes(files: &DataFiles, known: Contents<'_>) -> Result<bool, FilesFault> {
    Ok(
        files.is_long(DiskFile::Pages, known.pages.len())
            && files.is_long(DiskFile::Directory, known.directory.len())
            && files.has(DiskFile::Directory, 0, known.directory)?
            && files.has(DiskFile::Pages, 0, known.pages)?,
    )
}

/// Returns `true` if the data files have the known lengths, `.dir` has the known bytes, and `.pag` has the known bytes in each page that a
/// plan changes.
///
/// # Errors
/// `ReadFile` if a data file cannot be read.
pub(crate) fn knows(
    files: &DataFiles,
    plan: &[u8],
    known: Contents<'_>,
    size: PageSize,
) -> Result<bool, FilesFault>
    requires plan { IsPlan plan.now }
{
    if !files.is_long(DiskFile::Pages, known.pages.len())
        || !files.is_long(DiskFile::Directory, known.directory.len())
        || !files.has(DiskFile::Directory, 0, known.directory)?
    {
        return Ok(false);
    }
    knows_pages(files, plan, known.pages, size)
}

// Returns `true` if `.pag` has the known bytes in each page that a plan changes.
fn knows_pages(
    files: &DataFiles,
    plan: &[u8],
    known: &[u8],
    size: PageSize,
) -> Result<bool, FilesFault>
    requires plan { IsPlan plan.now }
{
    let count = number(plan, 24);
    let mut rest = &plan[28..];
    for index in 0..count {
        if !knows_page(files, rest, known, size)? {
            return Ok(false);
        }
        rest = rest_of(rest);
    }
    Ok(true)
}

// Returns `true` if a change is not one of `.pag`, or `.pag` has the known bytes in its page.
fn knows_page(
    files: &DataFiles,
    change: &[u8],
    known: &[u8],
    size: PageSize,
) -> Result<bool, FilesFault>
    requires whole { span_of change.now ≤ length change.now }
{
    if file_of(change) != DiskFile::Pages {
        return Ok(true);
    }
    let (at, size) = (number(change, 1), size.bytes());
    let start = at - at % size;
    match known.get(start..known.len().min(start.saturating_add(size))) {
        Some(page) => files.has(DiskFile::Pages, start, page),
        None => Ok(false),
    }
}
