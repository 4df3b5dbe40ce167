//! The supported instructions of RFC 9669: the groups base32, base64, divmul32 and divmul64.

/// The number of bits that an operation or a test reads of its operands.
#[derive(Clone, Copy, Debug, PartialEq, Eq)]
pub enum Width {
    /// The low 32 bits: the classes ALU and JMP32.
    W32,
    /// All 64 bits: the classes ALU64 and JMP.
    W64,
}

/// The size of a part of a number, or of a memory access: 1, 2, 4 or 8 bytes.
#[derive(Clone, Copy, Debug, PartialEq, Eq)]
pub enum Size {
    Byte,
    Half,
    Word,
    Double,
}

/// An operation on a destination and an operand.
#[derive(Clone, Copy, Debug, PartialEq, Eq)]
pub enum Op {
    Add,
    Sub,
    Mul,
    /// Unsigned division.
    Div,
    /// Signed division, rounded towards zero.
    SDiv,
    Or,
    And,
    /// Shift to the left.
    Lsh,
    /// Shift to the right with zeros.
    Rsh,
    /// The negated destination. Takes no operand.
    Neg,
    /// Unsigned remainder.
    Mod,
    /// Signed remainder, with the sign of the destination.
    SMod,
    Xor,
    Mov,
    /// The low part of the operand, sign-extended.
    MovSx(Size),
    /// Arithmetic shift to the right.
    Arsh,
    /// The low part of the destination, converted to little endian. Takes no operand.
    Little(Size),
    /// The low part of the destination, converted to big endian. Takes no operand.
    Big(Size),
    /// The low part of the destination with its bytes reversed. Takes no operand.
    Swap(Size),
}

/// The test of a conditional jump, on a destination and an operand.
#[derive(Clone, Copy, Debug, PartialEq, Eq)]
pub enum Test {
    Eq,
    Gt,
    Ge,
    /// True if the destination and the operand have a bit in common.
    Set,
    Ne,
    /// A signed comparison, like `SGe`.
    SGt,
    SGe,
    Lt,
    Le,
    /// A signed comparison, like `SLe`.
    SLt,
    SLe,
}

/// The operand of an operation or a test.
#[derive(Clone, Copy, Debug, PartialEq, Eq)]
pub enum Operand {
    /// A number, sign-extended in 64-bit operations.
    Imm(i32),
    /// The value of a register.
    Reg(u8),
}

/// An instruction. Registers are numbers from 0 to 10, and distances are in units.
#[derive(Clone, Copy, Debug, PartialEq, Eq)]
pub enum Insn {
    /// Arithmetic with an operand; the result is in `dst`.
    Alu {
        op: Op,
        width: Width,
        dst: u8,
        src: Operand,
    },
    /// Arithmetic without an operand, on `dst`: `Neg`, `Little`, `Big` and `Swap`.
    Unary {
        op: Op,
        width: Width,
        dst: u8,
    },
    /// A jump by `offset` from the next unit, if the test holds.
    Branch {
        test: Test,
        width: Width,
        dst: u8,
        src: Operand,
        offset: i16,
    },
    /// A jump by `offset` from the next unit.
    Jump {
        offset: i16,
    },
    /// Like `Jump`, with a distance of 32 bits.
    JumpFar {
        offset: i32,
    },
    /// A call of a helper by its number.
    Call {
        helper: i32,
    },
    /// Ends the program with the number in R0.
    Exit,
    /// Loads a number from memory into `dst`.
    Load {
        size: Size,
        dst: u8,
        base: u8,
        offset: i16,
    },
    /// Loads a number from memory into `dst`, sign-extended to 64 bits.
    LoadSigned {
        size: Size,
        dst: u8,
        base: u8,
        offset: i16,
    },
    /// Stores the low bytes of `value`, sign-extended to 64 bits.
    StoreImm {
        size: Size,
        base: u8,
        offset: i16,
        value: i32,
    },
    /// Stores the low bytes of `src`.
    Store {
        size: Size,
        base: u8,
        offset: i16,
        src: u8,
    },
    /// Loads a constant of 64 bits into `dst`. The only instruction of two units.
    Wide {
        dst: u8,
        value: u64,
    },
}
