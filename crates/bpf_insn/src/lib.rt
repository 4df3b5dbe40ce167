//! Instructions of RFC 9669, their results, and programs as bytes.
//!
//! An image is a list of units of 8 bytes. `decode` turns it into its code, a list of instructions,
//! and `encode` turns a code into its image. `apply` computes an operation and `holds` a test.
#![tactic(auto)]

mod arithmetic;
mod arithmetic_rows;
mod code;
mod conditions;
mod constant;
mod decoding;
mod encoding;
mod equality;
mod fault;
mod fields;
mod insn;
mod jump_rows;
mod memory_rows;
mod operands;
mod reading;
mod rows;
mod spelling;

pub use arithmetic::{apply, sign_extended};
pub use code::{Code, UNIT_LIMIT};
pub use conditions::holds;
pub use decoding::decode;
pub use encoding::encode;
pub use fault::DecodeFault;
pub use insn::{Insn, Op, Operand, Size, Test, Width};
