//! Writes a whole text to a writer by calling `write` in a loop.
ghost use Rattle.std.specs.Prelude.{OnOk, OnErr, Some, codes};
ghost use Rattle.std.specs.Io.KnownBytes.{Appends};
ghost use Rattle.byte_text.specs.Writing.{WritesPart};

use std::error::Error;
use std::fmt;
use std::io::Write;

/// The writer failed, or accepted no bytes, before the whole text was written.
#[derive(Clone, Copy, Debug, PartialEq, Eq)]
pub struct CutShort;

impl fmt::Display for CutShort {
    ghost output = { λ _. Some (codes "CutShort") };

    fn fmt<W: fmt::Write>(&self, f: &mut fmt::Formatter<W>) -> fmt::Result {
        f.write_str("CutShort")
    }
}

impl Error for CutShort {}

/// Writes a whole text.
///
/// # Errors
/// `CutShort` if the writer fails, accepts no bytes, or is interrupted. In these cases only a prefix of the text was written.
pub fn write_all<W: Write>(writer: &mut W, text: &[u8]) -> Result<(), CutShort>
    ensures ok { OnOk result (Appends (W.contents writer.old) (W.contents writer.new) text.now) }
    ensures part { OnErr result (WritesPart (W.contents writer.old) (W.contents writer.new) text.now) }
{
    let mut done = 0;
    while done < text.len() {
        let Ok(count) = writer.write(&text[done..]) else {
            return Err(CutShort);
        };
        if count == 0 {
            return Err(CutShort);
        }
        done += count;
    }
    Ok(())
}
