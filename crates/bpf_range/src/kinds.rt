//! The kinds of values that a register may hold.

use crate::known::Known;

/// The kind of a register's value. A pointer's offset is from `lo` to `hi`, both included. Offsets
/// count from the beginning of the region, but from the end of the stack.
#[derive(Clone, Copy, Debug, PartialEq, Eq)]
pub enum Kind {
    /// Any value, including none.
    Unset,
    /// A number.
    Num(Known),
    /// The length of the record.
    RecLen,
    /// The length of the argument.
    ArgLen,
    /// A pointer into the record.
    Rec { lo: i64, hi: i64 },
    /// A pointer into the argument.
    Arg { lo: i64, hi: i64 },
    /// A pointer into the stack.
    Stack { lo: i64, hi: i64 },
}
