//! Texts with the maximum number of units, and with the maximum number of labels.

use bpf_asm::{AsmFault, FaultKind, assemble, disassemble};
use std::alloc::{AllocError, Global};
use std::fmt::Write;
use std::test::Fail;

// The fault of a text, or `None` if it is valid.
fn fault_of(alloc: Global, text: &str) -> Option<AsmFault> {
    assemble(alloc, text).err()
}

// A text of `count` instructions `exit`.
fn exits(alloc: Global, count: usize) -> Result<String, AllocError> {
    let mut text = String::new(alloc);
    for _ in 0..count {
        text.push_str("exit\n")?;
    }
    Ok(text)
}

#[test]
fn no_text(rt: HostRuntime) -> Result<(), Fail> {
    let code = assemble(rt.alloc(), "")?;
    assert!(rt; code.is_empty());
    assert_eq!(rt; disassemble(rt.alloc(), &code)?.as_str(), "");
    Ok(())
}

#[test]
fn most_units(rt: HostRuntime) -> Result<(), Fail> {
    let text = exits(rt.alloc(), 4096)?;
    let longest = assemble(rt.alloc(), text.as_str())?;
    assert_eq!(rt; longest.units(), 4096);
    assert_eq!(rt; disassemble(rt.alloc(), &longest)?.as_str(), text.as_str());
    let above = exits(rt.alloc(), 4097)?;
    assert_eq!(rt;
        fault_of(rt.alloc(), above.as_str()),
        Some(AsmFault {
            line: 4097,
            kind: FaultKind::TooLong
        })
    );
    let mut wide = exits(rt.alloc(), 4095)?;
    wide.push_str("lddw r0, 1\n")?;
    assert_eq!(rt;
        fault_of(rt.alloc(), wide.as_str()),
        Some(AsmFault {
            line: 4096,
            kind: FaultKind::TooLong
        })
    );
    Ok(())
}

// Each unit is a label and a jump to the next label.
#[test]
fn most_labels(rt: HostRuntime) -> Result<(), Fail> {
    let mut text = String::new(rt.alloc());
    let mut jumps = String::new(rt.alloc());
    for i in 0..4096u32 {
        let next = i + 1;
        write!(text, "l{i}:\nja l{next}\n")?;
        jumps.push_str("ja +0\n")?;
    }
    text.push_str("l4096:\n")?;
    let code = assemble(rt.alloc(), text.as_str())?;
    assert_eq!(rt; code.units(), 4096);
    assert_eq!(rt; disassemble(rt.alloc(), &code)?.as_str(), jumps.as_str());
    text.push_str("exit\n")?;
    assert_eq!(rt;
        fault_of(rt.alloc(), text.as_str()),
        Some(AsmFault {
            line: 8194,
            kind: FaultKind::TooLong
        })
    );
    Ok(())
}

// Each unit is a jump to the end of the code; the first jumps over all other units.
#[test]
fn longest_jumps(rt: HostRuntime) -> Result<(), Fail> {
    let mut text = String::new(rt.alloc());
    let mut jumps = String::new(rt.alloc());
    for below in 0..4096u32 {
        text.push_str("ja end\n")?;
        let distance = 4095 - below;
        write!(jumps, "ja +{distance}\n")?;
    }
    text.push_str("end:")?;
    let code = assemble(rt.alloc(), text.as_str())?;
    assert_eq!(rt; disassemble(rt.alloc(), &code)?.as_str(), jumps.as_str());
    Ok(())
}
