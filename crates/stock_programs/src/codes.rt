//! The codes of the programs, one instruction per line. Each is proved equal to its program's list in `specs/`.
ghost use Rattle.std.specs.Prelude.{◌≡◌, ◌≤◌, ◌*◌, length, IfOk};
ghost use Rattle.std.specs.List.{AllByRecursion};
ghost use Rattle.bpf_insn.specs.Spelling.{HasSpelling};
ghost use Rattle.bpf_insn.specs.Code.{unit_limit};
ghost use Rattle.stock_programs.specs.Counter.{counter};
ghost use Rattle.stock_programs.specs.BoundedAdd.{bounded_add};
ghost use Rattle.stock_programs.specs.BoundedCounter.{bounded_counter};
ghost use Rattle.stock_programs.specs.CompareAndSet.{compare_and_set};
ghost use Rattle.stock_programs.specs.Sequence.{sequence};
ghost use Rattle.stock_programs.specs.Lease.{lease};
ghost use Rattle.stock_programs.specs.FencedLease.{fenced_lease};
ghost use Rattle.stock_programs.specs.RateLimit.{rate_limit};
ghost use Rattle.stock_programs.specs.Semaphore.{semaphore};
ghost use Rattle.stock_programs.specs.TokenBucket.{token_bucket};

use bpf_insn::Operand::{Imm, Reg};
use bpf_insn::{Code, Insn, Op, Size, Test, Width};
use std::alloc::{AllocError, Allocator};

// 64-bit instructions, with their operands in the order of the assembler.
macro_rules! alu {
    ($op:ident, $dst:expr, $src:expr) => {
        Insn::Alu { op: Op::$op, width: Width::W64, dst: $dst, src: $src }
    };
}

macro_rules! branch {
    ($test:ident, $dst:expr, $src:expr, $offset:expr) => {
        Insn::Branch { test: Test::$test, width: Width::W64, dst: $dst, src: $src, offset: $offset }
    };
}

macro_rules! load {
    ($dst:expr, $base:expr, $offset:expr) => {
        Insn::Load { size: Size::Double, dst: $dst, base: $base, offset: $offset }
    };
}

macro_rules! store {
    ($base:expr, $offset:expr, $src:expr) => {
        Insn::Store { size: Size::Double, base: $base, offset: $offset, src: $src }
    };
}

macro_rules! store_number {
    ($base:expr, $offset:expr, $value:expr) => {
        Insn::StoreImm { size: Size::Double, base: $base, offset: $offset, value: $value }
    };
}

// Copies the instructions into a code.
fn code_from<A: Allocator>(alloc: A, insns: &[Insn]) -> Result<Code<A>, AllocError>
    requires has { AllByRecursion HasSpelling insns.now }
    requires few { 2 * length insns.now ≤ unit_limit }
    ensures { IfOk result (λ code. code ≡ insns.now) }
{
    let mut code = Code::new(alloc);
    for insn in insns {
        code.push(*insn)?;
    }
    Ok(code)
}

/// Makes the code of `examples/counter.s`.
///
/// # Errors
/// `AllocError` if an allocation fails.
pub fn counter_code<A: Allocator>(alloc: A) -> Result<Code<A>, AllocError>
    ensures { IfOk result (λ code. code ≡ counter) }
{
    let insns = [
        branch!(Lt, 2, Imm(8), 5),
        load!(6, 1, 0),
        alu!(Add, 6, Imm(1)),
        store!(1, 0, 6),
        alu!(Mov, 0, Imm(1)),
        Insn::Exit,
        alu!(Mov, 0, Imm(4)),
        Insn::Exit,
    ];
    code_from(alloc, &insns)
}

/// Makes the code of `examples/bounded_add.s`.
///
/// # Errors
/// `AllocError` if an allocation fails.
pub fn bounded_add_code<A: Allocator>(alloc: A) -> Result<Code<A>, AllocError>
    ensures { IfOk result (λ code. code ≡ bounded_add) }
{
    let insns = [
        branch!(Lt, 2, Imm(8), 13),
        branch!(Lt, 4, Imm(16), 12),
        load!(6, 1, 0),
        load!(7, 3, 0),
        load!(8, 3, 8),
        branch!(Gt, 6, Reg(8), 6),
        alu!(Sub, 8, Reg(6)),
        branch!(Gt, 7, Reg(8), 4),
        alu!(Add, 6, Reg(7)),
        store!(1, 0, 6),
        alu!(Mov, 0, Imm(1)),
        Insn::Exit,
        alu!(Mov, 0, Imm(0)),
        Insn::Exit,
        alu!(Mov, 0, Imm(4)),
        Insn::Exit,
    ];
    code_from(alloc, &insns)
}

/// Makes the code of `examples/bounded_counter.s`.
///
/// # Errors
/// `AllocError` if an allocation fails.
pub fn bounded_counter_code<A: Allocator>(alloc: A) -> Result<Code<A>, AllocError>
    ensures { IfOk result (λ code. code ≡ bounded_counter) }
{
    let insns = [
        branch!(Lt, 2, Imm(8), 25),
        branch!(Lt, 4, Imm(24), 24),
        alu!(Mov, 6, Reg(1)),
        load!(7, 6, 0),
        load!(8, 3, 0),
        load!(9, 3, 8),
        load!(5, 3, 16),
        alu!(Mov, 0, Imm(-1)),
        alu!(Rsh, 0, Imm(1)),
        branch!(Gt, 8, Reg(0), 3),
        alu!(Add, 8, Reg(7)),
        branch!(Lt, 8, Reg(7), 10),
        Insn::Jump { offset: 2 },
        alu!(Add, 8, Reg(7)),
        branch!(Ge, 8, Reg(7), 7),
        branch!(Lt, 8, Reg(9), 6),
        branch!(Gt, 8, Reg(5), 5),
        store!(6, 0, 8),
        alu!(Mov, 1, Reg(8)),
        Insn::Call { helper: 1 },
        alu!(Mov, 0, Imm(1)),
        Insn::Exit,
        alu!(Mov, 1, Reg(7)),
        Insn::Call { helper: 1 },
        alu!(Mov, 0, Imm(0)),
        Insn::Exit,
        alu!(Mov, 0, Imm(4)),
        Insn::Exit,
    ];
    code_from(alloc, &insns)
}

/// Makes the code of `examples/compare_and_set.s`.
///
/// # Errors
/// `AllocError` if an allocation fails.
pub fn compare_and_set_code<A: Allocator>(alloc: A) -> Result<Code<A>, AllocError>
    ensures { IfOk result (λ code. code ≡ compare_and_set) }
{
    let insns = [
        branch!(Lt, 2, Imm(8), 13),
        branch!(Lt, 4, Imm(16), 12),
        alu!(Mov, 6, Reg(1)),
        load!(7, 3, 0),
        load!(8, 3, 8),
        load!(9, 6, 0),
        alu!(Mov, 1, Reg(9)),
        Insn::Call { helper: 1 },
        branch!(Ne, 9, Reg(7), 3),
        store!(6, 0, 8),
        alu!(Mov, 0, Imm(1)),
        Insn::Exit,
        alu!(Mov, 0, Imm(0)),
        Insn::Exit,
        alu!(Mov, 0, Imm(4)),
        Insn::Exit,
    ];
    code_from(alloc, &insns)
}

/// Makes the code of `examples/sequence.s`.
///
/// # Errors
/// `AllocError` if an allocation fails.
pub fn sequence_code<A: Allocator>(alloc: A) -> Result<Code<A>, AllocError>
    ensures { IfOk result (λ code. code ≡ sequence) }
{
    let insns = [
        branch!(Lt, 2, Imm(24), 15),
        branch!(Lt, 4, Imm(24), 14),
        load!(6, 1, 0),
        load!(7, 3, 0),
        branch!(Le, 7, Reg(6), 7),
        alu!(Mov, 2, Reg(3)),
        alu!(Mov, 3, Imm(24)),
        Insn::Call { helper: 5 },
        alu!(Mov, 1, Reg(7)),
        Insn::Call { helper: 1 },
        alu!(Mov, 0, Imm(1)),
        Insn::Exit,
        alu!(Mov, 1, Reg(6)),
        Insn::Call { helper: 1 },
        alu!(Mov, 0, Imm(0)),
        Insn::Exit,
        alu!(Mov, 0, Imm(4)),
        Insn::Exit,
    ];
    code_from(alloc, &insns)
}

/// Makes the code of `examples/lease.s`.
///
/// # Errors
/// `AllocError` if an allocation fails.
pub fn lease_code<A: Allocator>(alloc: A) -> Result<Code<A>, AllocError>
    ensures { IfOk result (λ code. code ≡ lease) }
{
    let insns = [
        branch!(Lt, 2, Imm(16), 25),
        branch!(Lt, 4, Imm(16), 24),
        alu!(Mov, 6, Reg(1)),
        load!(7, 3, 0),
        load!(8, 3, 8),
        Insn::Call { helper: 2 },
        alu!(Mov, 9, Reg(0)),
        load!(1, 6, 8),
        branch!(Le, 1, Reg(9), 5),
        load!(2, 6, 0),
        branch!(Eq, 2, Reg(7), 3),
        Insn::Call { helper: 1 },
        alu!(Mov, 0, Imm(0)),
        Insn::Exit,
        branch!(Eq, 8, Imm(0), 9),
        alu!(Add, 8, Reg(9)),
        branch!(Ge, 8, Reg(9), 1),
        alu!(Mov, 8, Imm(-1)),
        store!(6, 0, 7),
        store!(6, 8, 8),
        alu!(Mov, 1, Reg(8)),
        Insn::Call { helper: 1 },
        alu!(Mov, 0, Imm(1)),
        Insn::Exit,
        alu!(Mov, 0, Imm(2)),
        Insn::Exit,
        alu!(Mov, 0, Imm(4)),
        Insn::Exit,
    ];
    code_from(alloc, &insns)
}

/// Makes the code of `examples/fenced_lease.s`.
///
/// # Errors
/// `AllocError` if an allocation fails.
pub fn fenced_lease_code<A: Allocator>(alloc: A) -> Result<Code<A>, AllocError>
    ensures { IfOk result (λ code. code ≡ fenced_lease) }
{
    let insns = [
        branch!(Lt, 2, Imm(24), 35),
        branch!(Lt, 4, Imm(16), 34),
        alu!(Mov, 6, Reg(1)),
        load!(7, 3, 0),
        load!(8, 3, 8),
        Insn::Call { helper: 2 },
        alu!(Mov, 9, Reg(0)),
        load!(1, 6, 8),
        branch!(Le, 1, Reg(9), 5),
        load!(2, 6, 0),
        branch!(Eq, 2, Reg(7), 10),
        Insn::Call { helper: 1 },
        alu!(Mov, 0, Imm(0)),
        Insn::Exit,
        branch!(Eq, 8, Imm(0), 16),
        load!(2, 6, 16),
        alu!(Add, 2, Imm(1)),
        branch!(Eq, 2, Imm(0), 16),
        store!(6, 0, 7),
        store!(6, 16, 2),
        Insn::Jump { offset: 2 },
        branch!(Eq, 8, Imm(0), 9),
        load!(2, 6, 16),
        alu!(Add, 8, Reg(9)),
        branch!(Ge, 8, Reg(9), 1),
        alu!(Mov, 8, Imm(-1)),
        store!(6, 8, 8),
        alu!(Mov, 1, Reg(2)),
        Insn::Call { helper: 1 },
        alu!(Mov, 0, Imm(1)),
        Insn::Exit,
        store_number!(6, 8, 0),
        alu!(Mov, 0, Imm(1)),
        Insn::Exit,
        alu!(Mov, 0, Imm(3)),
        Insn::Exit,
        alu!(Mov, 0, Imm(4)),
        Insn::Exit,
    ];
    code_from(alloc, &insns)
}

/// Makes the code of `examples/rate_limit.s`.
///
/// # Errors
/// `AllocError` if an allocation fails.
pub fn rate_limit_code<A: Allocator>(alloc: A) -> Result<Code<A>, AllocError>
    ensures { IfOk result (λ code. code ≡ rate_limit) }
{
    let insns = [
        branch!(Lt, 2, Imm(16), 27),
        branch!(Lt, 4, Imm(16), 26),
        alu!(Mov, 6, Reg(1)),
        load!(7, 3, 0),
        load!(8, 3, 8),
        Insn::Call { helper: 2 },
        alu!(Mov, 9, Reg(0)),
        load!(1, 6, 0),
        branch!(Lt, 9, Reg(1), 2),
        alu!(Sub, 0, Reg(1)),
        branch!(Lt, 0, Reg(7), 3),
        store!(6, 0, 9),
        store_number!(6, 8, 0),
        alu!(Mov, 0, Imm(0)),
        load!(2, 6, 8),
        branch!(Ge, 2, Reg(8), 7),
        alu!(Add, 2, Imm(1)),
        store!(6, 8, 2),
        alu!(Sub, 8, Reg(2)),
        alu!(Mov, 1, Reg(8)),
        Insn::Call { helper: 1 },
        alu!(Mov, 0, Imm(1)),
        Insn::Exit,
        alu!(Sub, 7, Reg(0)),
        alu!(Mov, 1, Reg(7)),
        Insn::Call { helper: 1 },
        alu!(Mov, 0, Imm(0)),
        Insn::Exit,
        alu!(Mov, 0, Imm(4)),
        Insn::Exit,
    ];
    code_from(alloc, &insns)
}

/// Makes the code of `examples/semaphore.s`.
///
/// # Errors
/// `AllocError` if an allocation fails.
pub fn semaphore_code<A: Allocator>(alloc: A) -> Result<Code<A>, AllocError>
    ensures { IfOk result (λ code. code ≡ semaphore) }
{
    let insns = [
        branch!(Lt, 2, Imm(8), 20),
        branch!(Lt, 4, Imm(16), 19),
        alu!(Mov, 6, Reg(1)),
        load!(7, 6, 0),
        load!(8, 3, 0),
        load!(9, 3, 8),
        branch!(Eq, 8, Imm(0), 3),
        branch!(Ge, 7, Reg(9), 9),
        alu!(Add, 7, Imm(1)),
        Insn::Jump { offset: 2 },
        branch!(Eq, 7, Imm(0), 6),
        alu!(Sub, 7, Imm(1)),
        store!(6, 0, 7),
        alu!(Mov, 1, Reg(7)),
        Insn::Call { helper: 1 },
        alu!(Mov, 0, Imm(1)),
        Insn::Exit,
        alu!(Mov, 1, Reg(7)),
        Insn::Call { helper: 1 },
        alu!(Mov, 0, Imm(0)),
        Insn::Exit,
        alu!(Mov, 0, Imm(4)),
        Insn::Exit,
    ];
    code_from(alloc, &insns)
}

/// Makes the code of `examples/token_bucket.s`.
///
/// # Errors
/// `AllocError` if an allocation fails.
pub fn token_bucket_code<A: Allocator>(alloc: A) -> Result<Code<A>, AllocError>
    ensures { IfOk result (λ code. code ≡ token_bucket) }
{
    let insns = [
        branch!(Lt, 2, Imm(8), 29),
        branch!(Lt, 4, Imm(16), 28),
        alu!(Mov, 6, Reg(1)),
        load!(7, 3, 0),
        load!(8, 3, 8),
        Insn::Call { helper: 2 },
        load!(9, 6, 0),
        branch!(Ge, 9, Reg(0), 1),
        alu!(Mov, 9, Reg(0)),
        branch!(Gt, 7, Reg(8), 16),
        alu!(Sub, 8, Reg(7)),
        alu!(Mov, 1, Reg(9)),
        alu!(Sub, 1, Reg(0)),
        branch!(Gt, 1, Reg(8), 8),
        alu!(Sub, 8, Reg(1)),
        alu!(Add, 7, Reg(9)),
        branch!(Lt, 7, Reg(9), 9),
        store!(6, 0, 7),
        alu!(Mov, 1, Reg(8)),
        Insn::Call { helper: 1 },
        alu!(Mov, 0, Imm(1)),
        Insn::Exit,
        alu!(Sub, 1, Reg(8)),
        Insn::Call { helper: 1 },
        alu!(Mov, 0, Imm(0)),
        Insn::Exit,
        alu!(Mov, 1, Imm(-1)),
        Insn::Call { helper: 1 },
        alu!(Mov, 0, Imm(0)),
        Insn::Exit,
        alu!(Mov, 0, Imm(4)),
        Insn::Exit,
    ];
    code_from(alloc, &insns)
}
