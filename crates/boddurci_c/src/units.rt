//! The offending unit of an invalid program image.
ghost use Rattle.std.specs.Prelude.{◌≡◌, unwrap_or};
ghost use Rattle.boddurci_c.specs.Units.{unit_in, nowhere};

use bpf_insn::DecodeFault;
use prog_registry::RegFault;

/// The unit of 8 bytes at which a program image is invalid, or `usize::MAX` if the fault has no unit.
pub fn unit_of(fault: RegFault) -> usize
    ensures { result ≡ unwrap_or (unit_in fault) nowhere }
{
    let unit = match fault {
        RegFault::NoMemory | RegFault::Full => None,
        RegFault::Decode(DecodeFault::NoMemory | DecodeFault::Length | DecodeFault::TooLong) =>
            None,
        RegFault::Decode(
            DecodeFault::Opcode(at)
            | DecodeFault::HalfWide(at)
            | DecodeFault::Register(at)
            | DecodeFault::Reserved(at),
        ) => Some(at),
        RegFault::Verify(fault) => fault.place(),
    };
    unit.unwrap_or(usize::MAX)
}
