// The position of the next record in a log.

/// The length of the header, in bytes.
pub const HEADER: usize = 4096;

/// The position of the next record in a log. Opening a log returns the first position, and each save returns the next position.
#[derive(Clone, Copy, Debug, PartialEq, Eq)]
pub struct Log {
    /// The end of the records, counted from the end of the header.
    pub end: usize,
    /// The length of the redo file after the header.
    pub room: usize,
    /// The number of changes in the plans of all records.
    pub count: usize,
}
