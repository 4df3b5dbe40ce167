//! The names of operations and tests.

use bpf_insn::{Op, Size, Test, Width};

/// Reads the name of an operation, without its width.
pub fn read_op(word: &str) -> Option<Op> {
    match word {
        "add" => Some(Op::Add),
        "sub" => Some(Op::Sub),
        "mul" => Some(Op::Mul),
        "div" => Some(Op::Div),
        "sdiv" => Some(Op::SDiv),
        "or" => Some(Op::Or),
        "and" => Some(Op::And),
        "lsh" => Some(Op::Lsh),
        "rsh" => Some(Op::Rsh),
        "neg" => Some(Op::Neg),
        "mod" => Some(Op::Mod),
        "smod" => Some(Op::SMod),
        "xor" => Some(Op::Xor),
        "mov" => Some(Op::Mov),
        "arsh" => Some(Op::Arsh),
        _ => read_sized(word),
    }
}

// Reads the name of an operation that ends with a number of bits.
fn read_sized(word: &str) -> Option<Op> {
    if let Some(bits) = word.strip_prefix("movsx") {
        return Some(Op::MovSx(read_size(bits)?));
    }
    if let Some(bits) = word.strip_prefix("le") {
        return Some(Op::Little(read_size(bits)?));
    }
    if let Some(bits) = word.strip_prefix("be") {
        return Some(Op::Big(read_size(bits)?));
    }
    Some(Op::Swap(read_size(word.strip_prefix("swap")?)?))
}

fn read_size(bits: &str) -> Option<Size> {
    match bits {
        "8" => Some(Size::Byte),
        "16" => Some(Size::Half),
        "32" => Some(Size::Word),
        "64" => Some(Size::Double),
        _ => None,
    }
}

/// Reads the name of a test, without its width.
pub fn read_test(word: &str) -> Option<Test> {
    match word {
        "jeq" => Some(Test::Eq),
        "jne" => Some(Test::Ne),
        "jgt" => Some(Test::Gt),
        "jge" => Some(Test::Ge),
        "jlt" => Some(Test::Lt),
        "jle" => Some(Test::Le),
        "jset" => Some(Test::Set),
        "jsgt" => Some(Test::SGt),
        "jsge" => Some(Test::SGe),
        "jslt" => Some(Test::SLt),
        "jsle" => Some(Test::SLe),
        _ => None,
    }
}

/// Reads a width, given in bits.
pub fn read_width(bits: &str) -> Option<Width> {
    match bits {
        "32" => Some(Width::W32),
        "64" => Some(Width::W64),
        _ => None,
    }
}

/// Reads an edge: `true` if it is taken. Returns `None` for an unknown word.
pub fn read_edge(word: &str) -> Option<bool> {
    match word {
        "taken" => Some(true),
        "untaken" => Some(false),
        _ => None,
    }
}
