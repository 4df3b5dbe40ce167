//! Mnemonics.

ghost use Rattle.std.specs.Prelude.{◌≡◌, IfSome, IsTrue};
ghost use Rattle.bpf_asm.specs.Mnemonics.{name_of, row_named, is_row};

use bpf_insn::{Op, Size, Test, Width};

/// The instructions that share a mnemonic. The comment of each variant lists their operands.
#[derive(Clone, Copy, PartialEq, Eq)]
pub enum Row {
    /// A register, and a register or a number.
    Arith(Op, Width),
    /// Two registers. The low part of the second register is sign-extended.
    SignMove(Size, Width),
    /// A register.
    Unary(Op, Width),
    /// A register and a number of 64 bits.
    Wide,
    /// A register and an address.
    Load(Size),
    LoadSigned(Size),
    /// An address and a number.
    StoreImm(Size),
    /// An address and a register.
    Store(Size),
    /// A target.
    Jump,
    JumpFar,
    /// A register, a register or a number, and a target.
    Branch(Test, Width),
    /// A number.
    Call,
    /// No operands.
    Exit,
}

/// All rows that have a mnemonic.
pub const ROWS: [Row; 86] = [
    Row::Arith(Op::Add, Width::W64),
    Row::Arith(Op::Sub, Width::W64),
    Row::Arith(Op::Mul, Width::W64),
    Row::Arith(Op::Div, Width::W64),
    Row::Arith(Op::SDiv, Width::W64),
    Row::Arith(Op::Or, Width::W64),
    Row::Arith(Op::And, Width::W64),
    Row::Arith(Op::Lsh, Width::W64),
    Row::Arith(Op::Rsh, Width::W64),
    Row::Arith(Op::Mod, Width::W64),
    Row::Arith(Op::SMod, Width::W64),
    Row::Arith(Op::Xor, Width::W64),
    Row::Arith(Op::Mov, Width::W64),
    Row::Arith(Op::Arsh, Width::W64),
    Row::Arith(Op::Add, Width::W32),
    Row::Arith(Op::Sub, Width::W32),
    Row::Arith(Op::Mul, Width::W32),
    Row::Arith(Op::Div, Width::W32),
    Row::Arith(Op::SDiv, Width::W32),
    Row::Arith(Op::Or, Width::W32),
    Row::Arith(Op::And, Width::W32),
    Row::Arith(Op::Lsh, Width::W32),
    Row::Arith(Op::Rsh, Width::W32),
    Row::Arith(Op::Mod, Width::W32),
    Row::Arith(Op::SMod, Width::W32),
    Row::Arith(Op::Xor, Width::W32),
    Row::Arith(Op::Mov, Width::W32),
    Row::Arith(Op::Arsh, Width::W32),
    Row::SignMove(Size::Byte, Width::W64),
    Row::SignMove(Size::Half, Width::W64),
    Row::SignMove(Size::Word, Width::W64),
    Row::SignMove(Size::Byte, Width::W32),
    Row::SignMove(Size::Half, Width::W32),
    Row::Unary(Op::Neg, Width::W64),
    Row::Unary(Op::Neg, Width::W32),
    Row::Unary(Op::Little(Size::Half), Width::W32),
    Row::Unary(Op::Little(Size::Word), Width::W32),
    Row::Unary(Op::Little(Size::Double), Width::W32),
    Row::Unary(Op::Big(Size::Half), Width::W32),
    Row::Unary(Op::Big(Size::Word), Width::W32),
    Row::Unary(Op::Big(Size::Double), Width::W32),
    Row::Unary(Op::Swap(Size::Half), Width::W64),
    Row::Unary(Op::Swap(Size::Word), Width::W64),
    Row::Unary(Op::Swap(Size::Double), Width::W64),
    Row::Wide,
    Row::Load(Size::Byte),
    Row::Load(Size::Half),
    Row::Load(Size::Word),
    Row::Load(Size::Double),
    Row::LoadSigned(Size::Byte),
    Row::LoadSigned(Size::Half),
    Row::LoadSigned(Size::Word),
    Row::StoreImm(Size::Byte),
    Row::StoreImm(Size::Half),
    Row::StoreImm(Size::Word),
    Row::StoreImm(Size::Double),
    Row::Store(Size::Byte),
    Row::Store(Size::Half),
    Row::Store(Size::Word),
    Row::Store(Size::Double),
    Row::Jump,
    Row::JumpFar,
    Row::Branch(Test::Eq, Width::W64),
    Row::Branch(Test::Gt, Width::W64),
    Row::Branch(Test::Ge, Width::W64),
    Row::Branch(Test::Set, Width::W64),
    Row::Branch(Test::Ne, Width::W64),
    Row::Branch(Test::SGt, Width::W64),
    Row::Branch(Test::SGe, Width::W64),
    Row::Branch(Test::Lt, Width::W64),
    Row::Branch(Test::Le, Width::W64),
    Row::Branch(Test::SLt, Width::W64),
    Row::Branch(Test::SLe, Width::W64),
    Row::Branch(Test::Eq, Width::W32),
    Row::Branch(Test::Gt, Width::W32),
    Row::Branch(Test::Ge, Width::W32),
    Row::Branch(Test::Set, Width::W32),
    Row::Branch(Test::Ne, Width::W32),
    Row::Branch(Test::SGt, Width::W32),
    Row::Branch(Test::SGe, Width::W32),
    Row::Branch(Test::Lt, Width::W32),
    Row::Branch(Test::Le, Width::W32),
    Row::Branch(Test::SLt, Width::W32),
    Row::Branch(Test::SLe, Width::W32),
    Row::Call,
    Row::Exit,
];

/// The mnemonic of a 64-bit operation.
fn name64(op: Op) -> &'static str
    ensures { result.now ≡ name_of (Row.Arith op Width.W64) }
{
    match op {
        Op::Add => "add",
        Op::Sub => "sub",
        Op::Mul => "mul",
        Op::Div => "div",
        Op::SDiv => "sdiv",
        Op::Or => "or",
        Op::And => "and",
        Op::Lsh => "lsh",
        Op::Rsh => "rsh",
        Op::Mod => "mod",
        Op::SMod => "smod",
        Op::Xor => "xor",
        Op::Mov => "mov",
        Op::Arsh => "arsh",
        Op::Neg => "neg",
        _ => "",
    }
}

/// The mnemonic of a 32-bit operation.
fn name32(op: Op) -> &'static str
    ensures { result.now ≡ name_of (Row.Arith op Width.W32) }
{
    match op {
        Op::Add => "add32",
        Op::Sub => "sub32",
        Op::Mul => "mul32",
        Op::Div => "div32",
        Op::SDiv => "sdiv32",
        Op::Or => "or32",
        Op::And => "and32",
        Op::Lsh => "lsh32",
        Op::Rsh => "rsh32",
        Op::Mod => "mod32",
        Op::SMod => "smod32",
        Op::Xor => "xor32",
        Op::Mov => "mov32",
        Op::Arsh => "arsh32",
        Op::Neg => "neg32",
        _ => "",
    }
}

fn sign_move_name(size: Size, width: Width) -> &'static str
    ensures { result.now ≡ name_of (Row.SignMove size width) }
{
    match (width, size) {
        (Width::W64, Size::Byte) => "movsx8",
        (Width::W64, Size::Half) => "movsx16",
        (Width::W64, Size::Word) => "movsx32",
        (Width::W64, Size::Double) => "movsx64",
        (Width::W32, Size::Byte) => "mov32sx8",
        (Width::W32, Size::Half) => "mov32sx16",
        (Width::W32, Size::Word) => "mov32sx32",
        (Width::W32, Size::Double) => "mov32sx64",
    }
}

/// The mnemonic of an operation on a single register.
fn unary_name(op: Op, width: Width) -> &'static str
    ensures { result.now ≡ name_of (Row.Unary op width) }
{
    match op {
        Op::Neg => match width {
            Width::W64 => "neg",
            Width::W32 => "neg32",
        },
        Op::Little(Size::Byte) => "le8",
        Op::Little(Size::Half) => "le16",
        Op::Little(Size::Word) => "le32",
        Op::Little(Size::Double) => "le64",
        Op::Big(Size::Byte) => "be8",
        Op::Big(Size::Half) => "be16",
        Op::Big(Size::Word) => "be32",
        Op::Big(Size::Double) => "be64",
        Op::Swap(Size::Byte) => "swap8",
        Op::Swap(Size::Half) => "swap16",
        Op::Swap(Size::Word) => "swap32",
        Op::Swap(Size::Double) => "swap64",
        _ => "",
    }
}

fn load_name(size: Size) -> &'static str
    ensures { result.now ≡ name_of (Row.Load size) }
{
    match size {
        Size::Byte => "ldxb",
        Size::Half => "ldxh",
        Size::Word => "ldxw",
        Size::Double => "ldxdw",
    }
}

fn signed_load_name(size: Size) -> &'static str
    ensures { result.now ≡ name_of (Row.LoadSigned size) }
{
    match size {
        Size::Byte => "ldxsb",
        Size::Half => "ldxsh",
        Size::Word => "ldxsw",
        Size::Double => "ldxsdw",
    }
}

fn store_number_name(size: Size) -> &'static str
    ensures { result.now ≡ name_of (Row.StoreImm size) }
{
    match size {
        Size::Byte => "stb",
        Size::Half => "sth",
        Size::Word => "stw",
        Size::Double => "stdw",
    }
}

fn store_name(size: Size) -> &'static str
    ensures { result.now ≡ name_of (Row.Store size) }
{
    match size {
        Size::Byte => "stxb",
        Size::Half => "stxh",
        Size::Word => "stxw",
        Size::Double => "stxdw",
    }
}

fn branch_name64(test: Test) -> &'static str
    ensures { result.now ≡ name_of (Row.Branch test Width.W64) }
{
    match test {
        Test::Eq => "jeq",
        Test::Gt => "jgt",
        Test::Ge => "jge",
        Test::Set => "jset",
        Test::Ne => "jne",
        Test::SGt => "jsgt",
        Test::SGe => "jsge",
        Test::Lt => "jlt",
        Test::Le => "jle",
        Test::SLt => "jslt",
        Test::SLe => "jsle",
    }
}

fn branch_name32(test: Test) -> &'static str
    ensures { result.now ≡ name_of (Row.Branch test Width.W32) }
{
    match test {
        Test::Eq => "jeq32",
        Test::Gt => "jgt32",
        Test::Ge => "jge32",
        Test::Set => "jset32",
        Test::Ne => "jne32",
        Test::SGt => "jsgt32",
        Test::SGe => "jsge32",
        Test::Lt => "jlt32",
        Test::Le => "jle32",
        Test::SLt => "jslt32",
        Test::SLe => "jsle32",
    }
}

impl Row {
    /// The mnemonic.
    pub fn name(self) -> &'static str
        ensures { result.now ≡ name_of self }
    {
        match self {
            Row::Arith(op, Width::W64) => name64(op),
            Row::Arith(op, Width::W32) => name32(op),
            Row::SignMove(size, width) => sign_move_name(size, width),
            Row::Unary(op, width) => unary_name(op, width),
            Row::Wide => "lddw",
            Row::Load(size) => load_name(size),
            Row::LoadSigned(size) => signed_load_name(size),
            Row::StoreImm(size) => store_number_name(size),
            Row::Store(size) => store_name(size),
            Row::Jump => "ja",
            Row::JumpFar => "ja32",
            Row::Branch(test, Width::W64) => branch_name64(test),
            Row::Branch(test, Width::W32) => branch_name32(test),
            Row::Call => "call",
            Row::Exit => "exit",
        }
    }
}

#[tactic(auto, unfolding(crate::specs::Mnemonics::row_named))]
fn find_row(name: &[u8]) -> Option<Row>
    ensures { result ≡ row_named name.now }
{
    ROWS.iter()
        .copied()
        .find(|row| row.name().as_bytes() == name)
}

/// Returns the row with this mnemonic, or `None` if no row has it.
#[tactic(auto, using(crate::proofs::Mnemonics::row_has_operation))]
pub fn row_named(name: &[u8]) -> Option<Row>
    ensures value { result ≡ row_named name.now }
    ensures valid { IfSome result (λ row. IsTrue (is_row row)) }
{
    find_row(name)
}
