//! Errors of sessions.

use dbm_script::LineFault;
use std::alloc::AllocError;

/// The reason why a session failed.
#[derive(Drop)]
pub enum SessionFault<F: Drop> {
    /// The reader failed.
    Read,
    /// A line has more than 16,777,216 bytes.
    TooLong,
    /// Writing an answer failed.
    Write,
    /// Allocation failed.
    NoMemory,
    /// Saving the database failed.
    Save(F),
}

impl<F: Drop> From<AllocError> for SessionFault<F> {
    fn from(_error: AllocError) -> SessionFault<F> {
        SessionFault::NoMemory
    }
}

impl<F: Drop> From<LineFault> for SessionFault<F> {
    fn from(fault: LineFault) -> SessionFault<F> {
        match fault {
            LineFault::Read => SessionFault::Read,
            LineFault::TooLong => SessionFault::TooLong,
            LineFault::NoMemory => SessionFault::NoMemory,
        }
    }
}
