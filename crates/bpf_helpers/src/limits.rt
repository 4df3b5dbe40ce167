//! The limits of a run's record and argument, and of one copy.

/// The maximum length of a run's record, in bytes.
pub const RECORD_LIMIT: usize = 8008;

/// The maximum length of a run's argument, in bytes.
pub const ARGUMENT_LIMIT: usize = 1024;

/// The maximum number of bytes of one copy.
pub const COPY_LIMIT: u64 = 1024;
