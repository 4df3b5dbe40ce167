//! The fields of a unit.

/// The fields of a unit of 8 bytes (RFC 9669, section 3.1).
#[derive(Clone, Copy, Debug, PartialEq, Eq)]
pub struct Fields {
    pub opcode: u8,
    /// The low four bits of the second byte.
    pub dst: u8,
    /// The high four bits of the second byte.
    pub src: u8,
    pub offset: i16,
    pub imm: i32,
}

impl Fields {
    ghost use Rattle.std.specs.Prelude.{◌≡◌, ◌+◌, ◌*◌, ◌<◌, ◌≤◌, length, take};
    ghost use Rattle.bpf_insn.specs.Spelling.{unit_bytes, IsFields};

    /// Reads the fields of the unit at the start of the bytes.
    pub fn read(bytes: &[u8]) -> Fields
        requires { 8 ≤ length bytes.now }
        ensures bytes { take 8 bytes.now ≡ unit_bytes result }
        ensures fits { IsFields result }
    {
        Fields {
            opcode: bytes[0],
            dst: bytes[1] % 16,
            src: bytes[1] / 16,
            offset: i16::from_le_bytes([bytes[2], bytes[3]]),
            imm: i32::from_le_bytes([bytes[4], bytes[5], bytes[6], bytes[7]]),
        }
    }

    /// The bytes of the unit.
    pub fn bytes(self) -> [u8; 8]
        requires { self.dst + 16 * self.src < 256 }
        ensures { result ≡ unit_bytes self }
    {
        let [offset_low, offset_high] = self.offset.to_le_bytes();
        let [first, second, third, fourth] = self.imm.to_le_bytes();
        [
            self.opcode,
            self.dst + 16 * self.src,
            offset_low,
            offset_high,
            first,
            second,
            third,
            fourth,
        ]
    }
}
