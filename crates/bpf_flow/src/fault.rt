//! The faults of instructions that are reached.

/// The fault of an instruction that is reached, without its unit.
#[derive(Clone, Copy, Debug, PartialEq, Eq)]
pub enum FlowFault {
    Unset,
    HelperArgument,
    ExitNotNumber,
    NotPointer,
    PointerOp,
    PointerRange,
    PointerStored,
    ArgumentWritten,
    OutOfRecord,
    OutOfArgument,
    OutOfStack,
}
