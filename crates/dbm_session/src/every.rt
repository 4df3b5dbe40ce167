//! The rule for the automatic saves of a session (`--save-every`).

use dbm_script::read_number;

/// The rule for the automatic saves of a session. Any session also saves at its end and at each line `save`.
#[derive(Clone, Copy, Debug, PartialEq, Eq)]
pub enum Every {
    /// No automatic saves.
    Never,
    /// A save once this many lines have requested changes since the last save.
    Changes(u64),
    /// A save after a line, if at least this many seconds have passed since the last save and a line has requested a change since then.
    Seconds(u64),
}

/// Reads the value of `--save-every`: `N` for a number of lines, or `Ns` for seconds. `N` is a decimal number from 1, without leading
/// zeros. Returns `None` if the value is invalid.
pub fn read_every(word: Option<&str>) -> Option<Every> {
    let Some(word) = word else {
        return Some(Every::Never);
    };
    match word.strip_suffix('s') {
        Some(number) => Some(Every::Seconds(read_count(number)?)),
        None => Some(Every::Changes(read_count(word)?)),
    }
}

// Reads a number from 1 upwards.
fn read_count(word: &str) -> Option<u64> {
    match read_number(word.as_bytes(), u64::MAX) {
        Some(0) => None,
        count => count,
    }
}

impl Every {
    /// Returns `true` if a save is due. `changes` is the number of lines that requested changes since the last save, and `seconds` is the
    /// time since that save.
    pub fn is_due(self, changes: u64, seconds: u64) -> bool {
        match self {
            Every::Never => false,
            Every::Changes(most) => changes >= most,
            Every::Seconds(most) => changes > 0 && seconds >= most,
        }
    }
}
