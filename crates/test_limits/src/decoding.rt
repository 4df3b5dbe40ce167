//! Images with their codes or faults, and memory that runs out.

use bpf_insn::{
    Code, DecodeFault, Insn, Op, Operand, Size, Test, Width, apply, decode, encode, holds,
};
use linked_list_allocator::LocalHeap;
use std::process::Abort;
use std::test::Fail;

// The code of an image in hex.
fn code_of(rt: &(impl Abort + AllocGlobal), digits: &str) -> Code {
    let image = hex::decode(rt.alloc(), digits)
        .ok()
        .expect(rt, "hex digits");
    decode(rt.alloc(), &image).ok().expect(rt, "a code")
}

#[test]
fn spellings(rt: HostRuntime) -> Result<(), Fail> {
    let table = [
        (
            "bc21080000000000",
            Insn::Alu {
                op: Op::MovSx(Size::Byte),
                width: Width::W32,
                dst: 1,
                src: Operand::Reg(2),
            },
        ),
        (
            "dc03000010000000",
            Insn::Unary {
                op: Op::Big(Size::Half),
                width: Width::W32,
                dst: 3,
            },
        ),
        (
            "d704000040000000",
            Insn::Unary {
                op: Op::Swap(Size::Double),
                width: Width::W64,
                dst: 4,
            },
        ),
        (
            "9706010003000000",
            Insn::Alu {
                op: Op::SMod,
                width: Width::W64,
                dst: 6,
                src: Operand::Imm(3),
            },
        ),
        ("0600000001000000", Insn::JumpFar { offset: 1 }),
        (
            "c6010200ffffffff",
            Insn::Branch {
                test: Test::SLt,
                width: Width::W32,
                dst: 1,
                src: Operand::Imm(-1),
                offset: 2,
            },
        ),
        (
            "8121fcff00000000",
            Insn::LoadSigned {
                size: Size::Word,
                dst: 1,
                base: 2,
                offset: -4,
            },
        ),
        (
            "18010000010000000000000000000000",
            Insn::Wide { dst: 1, value: 1 },
        ),
    ];
    for (digits, insn) in &table {
        let code = code_of(&rt, digits);
        assert_eq!(rt; code.len(), 1, "{digits}");
        assert_eq!(rt; code.insn_at(0), Some(*insn), "{digits}");
        assert_eq!(rt; code.insn_at(1), None, "{digits}");
        let image = encode(rt.alloc(), &code)?;
        let again = hex::encode(rt.alloc(), &image)?;
        assert_eq!(rt; again.as_str(), *digits);
    }
    Ok(())
}

#[test]
fn counter(rt: HostRuntime) -> Result<(), Fail> {
    let digits =
        "a502050008000000791600000000000007060000010000007b61000000000000b7000000010000009500000000000000b7000000000000009500000000000000";
    let code = code_of(&rt, digits);
    assert_eq!(rt; (code.len(), code.units()), (8, 8));
    assert!(rt; !code.is_empty());
    assert_eq!(rt;
        code.insn_at(0),
        Some(Insn::Branch {
            test: Test::Lt,
            width: Width::W64,
            dst: 2,
            src: Operand::Imm(8),
            offset: 5,
        })
    );
    assert_eq!(rt;
        code.insn_at(3),
        Some(Insn::Store {
            size: Size::Double,
            base: 1,
            offset: 0,
            src: 6
        })
    );
    assert_eq!(rt; code.insn_at(7), Some(Insn::Exit));
    assert_eq!(rt; code.insn_at(8), None);
    let image = encode(rt.alloc(), &code)?;
    let again = hex::encode(rt.alloc(), &image)?;
    assert_eq!(rt; again.as_str(), digits);
    Ok(())
}

#[test]
fn faults(rt: HostRuntime) -> Result<(), Fail> {
    let alloc = rt.alloc();
    assert!(rt; matches!(decode(alloc, &[0x95; 12]), Err(DecodeFault::Length)));
    let half_wide = [0x18, 0, 0, 0, 0, 0, 0, 0];
    assert!(rt; matches!(decode(alloc, &half_wide), Err(DecodeFault::HalfWide(0))));
    let reserved = [0x95, 0, 0, 0, 1, 0, 0, 0];
    assert!(rt; matches!(decode(alloc, &reserved), Err(DecodeFault::Reserved(0))));
    let too_long = vec![in alloc; 0u8; 4097 * 8]?;
    assert!(rt; matches!(decode(alloc, &too_long), Err(DecodeFault::TooLong)));
    let empty = decode(alloc, &[]).ok().ok_or("no bytes are a code")?;
    assert!(rt; empty.is_empty());
    assert_eq!(rt; empty.units(), 0);
    let text = format!(in alloc; "{}", DecodeFault::NoMemory)?;
    assert_eq!(rt; text.as_str(), "NoMemory");
    Ok(())
}

// The image of `units` instructions `exit`.
fn exits(alloc: std::alloc::Global, units: usize) -> Result<Vec<u8>, std::alloc::AllocError> {
    let mut image = Vec::new(alloc);
    for _ in 0..units {
        image.extend_from_slice(&[0x95, 0, 0, 0, 0, 0, 0, 0])?;
    }
    Ok(image)
}

#[test]
fn longest(rt: HostRuntime) -> Result<(), Fail> {
    let image = exits(rt.alloc(), 4096)?;
    let code = decode(rt.alloc(), &image)
        .ok()
        .ok_or("4,096 units are a code")?;
    assert_eq!(rt; (code.len(), code.units()), (4096, 4096));
    let again = encode(rt.alloc(), &code)?;
    assert_eq!(rt; again.as_slice(), image.as_slice());
    Ok(())
}

#[test]
fn built(rt: HostRuntime) -> Result<(), Fail> {
    let mut code = Code::with_capacity(rt.alloc(), 3)?;
    code.push(Insn::Wide { dst: 0, value: 7 })?;
    code.push(Insn::Exit)?;
    assert_eq!(rt; (code.len(), code.units()), (2, 3));
    assert_eq!(rt; Insn::Exit.units(), 1);
    assert_eq!(rt; code.insn_at(0), Some(Insn::Wide { dst: 0, value: 7 }));
    assert_eq!(rt; code.insn_at(1), None);
    assert_eq!(rt; code.insn_at(2), Some(Insn::Exit));
    assert!(rt; Code::new(rt.alloc()).is_empty());
    Ok(())
}

#[test]
fn equality(rt: HostRuntime) -> Result<(), Fail> {
    let counter = code_of(&rt, "b7000000010000009500000000000000");
    let again = code_of(&rt, "b7000000010000009500000000000000");
    let other = code_of(&rt, "b7000000020000009500000000000000");
    let longer = code_of(&rt, "b70000000100000095000000000000009500000000000000");
    assert!(rt; counter == again);
    assert!(rt; counter != other);
    assert!(rt; counter != longer);
    let one = code_of(&rt, "18000000010000000000000000000000");
    let high = code_of(&rt, "18000000010000000000000001000000");
    assert!(rt; one != high);
    Ok(())
}

#[test]
fn results(rt: HostRuntime) {
    let least = 1u64 << 63;
    let table = [
        (
            Op::SMod,
            Width::W64,
            0xffff_ffff_ffff_fff3,
            3,
            0xffff_ffff_ffff_ffff,
        ),
        (
            Op::SDiv,
            Width::W64,
            0xffff_ffff_ffff_fff9,
            2,
            0xffff_ffff_ffff_fffd,
        ),
        (Op::SDiv, Width::W64, least, 0xffff_ffff_ffff_ffff, least),
        (Op::SMod, Width::W64, least, 0xffff_ffff_ffff_ffff, 0),
        (Op::SDiv, Width::W32, 0x8000_0000, 0xffff_ffff, 0x8000_0000),
        (Op::Mod, Width::W32, 0x1_0000_0005, 0, 5),
        (Op::Mod, Width::W64, 0x1_0000_0005, 0, 0x1_0000_0005),
        (Op::Div, Width::W64, 0x1_0000_0005, 0, 0),
        (Op::Add, Width::W32, 0xffff_ffff_ffff_ffff, 1, 0),
        (Op::Lsh, Width::W64, 1, 65, 2),
        (Op::Arsh, Width::W32, 0x8000_0000, 31, 0xffff_ffff),
        (Op::MovSx(Size::Byte), Width::W32, 0, 0x80, 0xffff_ff80),
        (Op::Big(Size::Half), Width::W32, 0x1234_5678, 0, 0x7856),
        (Op::Swap(Size::Double), Width::W64, 1, 0, 1 << 56),
        (Op::Little(Size::Word), Width::W32, 0x1_0000_0002, 0, 2),
        (Op::Neg, Width::W32, 1, 0, 0xffff_ffff),
    ];
    for (op, width, a, b, want) in &table {
        assert_eq!(rt;
            apply(*op, *width, *a, *b),
            *want,
            "{op:?} {width:?} {a} {b}"
        );
    }
}

#[test]
fn conditions(rt: HostRuntime) {
    let minus_one = 0xffff_ffff_ffff_ffff;
    assert!(rt; holds(Test::Gt, Width::W64, minus_one, 0));
    assert!(rt; !holds(Test::SGt, Width::W64, minus_one, 0));
    assert!(rt; holds(Test::SLe, Width::W32, 0x1_ffff_ffff, 0));
    assert!(rt; holds(Test::Set, Width::W64, 6, 2));
    assert!(rt; !holds(Test::Set, Width::W32, 0x1_0000_0000, 0x1_0000_0000));
    assert!(rt; holds(Test::Eq, Width::W32, 0x1_0000_0007, 7));
}

#[test]
fn too_little_memory(rt: HostRuntime) -> Result<(), Fail> {
    let image = exits(rt.alloc(), 64)?;
    let code = decode(rt.alloc(), &image)
        .ok()
        .ok_or("64 units are a code")?;
    let small = LocalHeap::new(rt.alloc(), 128)?;
    assert!(rt; matches!(decode(&small, &image), Err(DecodeFault::NoMemory)));
    assert!(rt; encode(&small, &code).is_err());
    let mut short = Code::new(&small);
    let mut refused = false;
    for _ in 0..64 {
        let before = short.len();
        if short.units() > 4000 {
            break;
        }
        if short.push(Insn::Exit).is_err() {
            refused = true;
            assert_eq!(rt; short.len(), before);
            break;
        }
    }
    assert!(rt; refused);
    let ample = LocalHeap::new(rt.alloc(), 65536)?;
    assert!(rt; decode(&ample, &image).is_ok());
    assert!(rt; encode(&ample, &code).is_ok());
    Ok(())
}
