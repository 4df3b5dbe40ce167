//! The values of a running program's registers, and the environment of its helpers.

/// A region of memory into which a pointer may point.
#[derive(Clone, Copy, Debug, PartialEq, Eq)]
pub enum Region {
    /// The record, readable and writable.
    Record,
    /// The argument, read-only.
    Argument,
    /// The stack of 512 bytes; an offset of 0 is its end.
    Stack,
}

/// The value of a register.
#[derive(Clone, Copy, Debug, PartialEq, Eq)]
pub enum Value {
    /// No value: the register is unset.
    Nothing,
    Number(u64),
    /// A place in a region. The offset counts from the beginning of the region, but from the end of
    /// the stack.
    Pointer(Region, i64),
}

/// The environment of a run, for the helpers.
#[derive(Clone, Copy, Debug, PartialEq, Eq)]
pub struct Env {
    /// The time given in the command.
    pub now: u64,
    /// True if the key existed.
    pub present: bool,
    /// The session's number.
    pub who: u64,
}
