//! The first bytes of a key, for error messages.
ghost use Rattle.dbm_dump.specs.Heads.{IsHead};

use std::fmt;

/// The maximum number of stored bytes.
const HEAD_LEN: usize = 32;

/// The first 32 bytes of a key, and its length. It prints as text in quotes if these bytes are UTF-8 without control characters, and
/// otherwise in hex. Two dots mark a longer key.
#[derive(Clone, Copy, Debug)]
pub struct KeyHead {
    bytes: [u8; 32],
    len: usize,
}

impl KeyHead {
    /// Returns the head of a key.
    pub fn of(key: &[u8]) -> KeyHead
        ensures { IsHead key.now result }
    {
        let mut bytes = [0; 32];
        if key.len() < HEAD_LEN {
            bytes[..key.len()].copy_from_slice(key);
        } else {
            bytes.copy_from_slice(&key[..HEAD_LEN]);
        }
        KeyHead {
            bytes,
            len: key.len(),
        }
    }

    // Returns the stored bytes.
    fn kept(&self) -> &[u8] {
        if self.len < HEAD_LEN {
            return &self.bytes[..self.len];
        }
        &self.bytes
    }
}

impl fmt::Display for KeyHead {
    fn fmt<W: fmt::Write>(&self, f: &mut fmt::Formatter<W>) -> fmt::Result {
        let kept = self.kept();
        match str::from_utf8(kept) {
            Ok(text) if !text.is_empty() && !text.chars().any(|c| c.is_control()) => {
                fmt::Debug::fmt(text, f)?;
            }
            _ => show_hex(kept, f)?,
        }
        if self.len > HEAD_LEN {
            return f.write_str("..");
        }
        Ok(())
    }
}

// Prints bytes in hex, or a dot if there are no bytes.
fn show_hex<W: fmt::Write>(bytes: &[u8], f: &mut fmt::Formatter<W>) -> fmt::Result {
    if bytes.is_empty() {
        return f.write_str(".");
    }
    for byte in bytes {
        write!(f, "{byte:02x}")?;
    }
    Ok(())
}
