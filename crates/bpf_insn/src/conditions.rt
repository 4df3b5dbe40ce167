//! The tests of conditional jumps.

ghost use Rattle.std.specs.Prelude.{◌≡◌};
ghost use Rattle.bpf_insn.specs.Conditions.{comparison, holds_of};

use crate::arithmetic::ABOVE_32;
use crate::insn::{Test, Width};

fn holds64(test: Test, a: u64, b: u64) -> bool
    ensures { result ≡ comparison test Width.W64 a b }
{
    match test {
        Test::Eq => a == b,
        Test::Gt => a > b,
        Test::Ge => a >= b,
        Test::Set => a & b != 0,
        Test::Ne => a != b,
        Test::SGt => a.cast_signed() > b.cast_signed(),
        Test::SGe => a.cast_signed() >= b.cast_signed(),
        Test::Lt => a < b,
        Test::Le => a <= b,
        Test::SLt => a.cast_signed() < b.cast_signed(),
        Test::SLe => a.cast_signed() <= b.cast_signed(),
    }
}

fn holds32(test: Test, a: u32, b: u32) -> bool
    ensures { result ≡ comparison test Width.W32 a b }
{
    match test {
        Test::Eq => a == b,
        Test::Gt => a > b,
        Test::Ge => a >= b,
        Test::Set => a & b != 0,
        Test::Ne => a != b,
        Test::SGt => a.cast_signed() > b.cast_signed(),
        Test::SGe => a.cast_signed() >= b.cast_signed(),
        Test::Lt => a < b,
        Test::Le => a <= b,
        Test::SLt => a.cast_signed() < b.cast_signed(),
        Test::SLe => a.cast_signed() <= b.cast_signed(),
    }
}

/// Returns true if a test holds for the destination `a` and the operand `b` (RFC 9669, section 4.3).
/// A 32-bit test ignores the upper halves. Allocates no memory.
pub fn holds(test: Test, width: Width, a: u64, b: u64) -> bool
    ensures { result ≡ holds_of test width a b }
{
    match width {
        Width::W64 => holds64(test, a, b),
        Width::W32 => holds32(test, (a % ABOVE_32) as u32, (b % ABOVE_32) as u32),
    }
}
