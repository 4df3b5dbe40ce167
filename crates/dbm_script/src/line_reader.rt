//! Splits the bytes of a reader into lines. Memory holds one line and a buffer.
ghost use Rattle.std.specs.Prelude.{◌≡◌, ◌≤◌, [], false, vec_len, IfOk, IsErrOf};
ghost use Rattle.std.specs.Io.KnownBytes.{Consumes};
ghost use Rattle.dbm_script.specs.LineInput.{GivesNextLine, GivesEnded, IsLongNext, Refills, TakesPiece, lines_left};
ghost use Rattle.dbm_script.specs.declared.line_reader.LineFault.TheVariants.{NoMemory};

use memchr::memchr;
use std::alloc::{AllocError, Global};
use std::io::Read;
use std::marker::Model;

/// The reason why the next line could not be read.
#[derive(Clone, Copy, Debug, PartialEq, Eq)]
pub enum LineFault {
    /// The reader failed.
    Read,
    /// The line is longer than the limit.
    TooLong,
    /// Allocation failed.
    NoMemory,
}

impl From<AllocError> for LineFault {
    ghost from_gives = { λ _ fault. fault ≡ NoMemory };

    fn from(_error: AllocError) -> LineFault {
        LineFault::NoMemory
    }
}

/// A buffer of bytes that were read but not yet returned, with a flag for the end of the input.
#[derive(Drop)]
pub struct LineReader {
    buffer: Vec<u8>,
    at: usize,
    ended: bool,
    ghost within: { at ≤ vec_len buffer },
}

impl Model for LineReader {
    ghost use Rattle.std.specs.Prelude.{drop};
    ghost use Rattle.dbm_script.specs.LineInput.{Unread};

    ghost Value = { Unread };

    ghost view = { λ lines. record { rest = drop lines.at lines.buffer.items; ended = lines.ended } };
}

impl LineReader {
    /// Makes an empty buffer, for a reader from which nothing was read.
    pub fn new(alloc: Global) -> Self
        ensures rest { result.rest ≡ [] }
        ensures open { result.ended ≡ false }
    {
        LineReader {
            buffer: Vec::new(alloc),
            at: 0,
            ended: false,
        }
    }

    /// Returns `true` if no lines are left.
    pub fn has_ended(&self) -> bool
        ensures { result ≡ self.now.ended }
    {
        self.ended
    }

    /// Replaces `line` by the next line, without its LF. Returns `false` if no lines are left. The bytes after the last LF are one more
    /// line, which may be empty. Calls the reader only while the line is incomplete.
    ///
    /// # Errors
    /// `Read` if the reader fails or is interrupted, `TooLong` if the line has more than `most` bytes, and `NoMemory` if allocation fails.
    /// On error, the bytes read so far are lost.
    pub fn next<R: Read>(
        &mut self,
        reader: &mut R,
        line: &mut Vec<u8>,
        most: usize,
    ) -> Result<bool, LineFault>
        ensures given { IfOk result (λ found. GivesNextLine (lines_left self.old (R.remaining reader.old)) found line.new.items (lines_left self.new (R.remaining reader.new))) }
        ensures long { IsErrOf result LineFault.TooLong → IsLongNext most (lines_left self.old (R.remaining reader.old)) }
    {
        line.clear();
        if self.ended {
            return Ok(false);
        }
        loop {
            let found = self.take_piece(line)?;
            if line.len() > most {
                return Err(LineFault::TooLong);
            }
            if found {
                return Ok(true);
            }
            if !self.refill(reader)? {
                self.ended = true;
                return Ok(true);
            }
        }
    }

    /// Like `next`, but accepts only lines that end with LF. At the end of the input, returns `false`, and `line` has the bytes after the
    /// last LF: none, or an incomplete line.
    ///
    /// # Errors
    /// The errors of `next`.
    pub fn next_ended<R: Read>(
        &mut self,
        reader: &mut R,
        line: &mut Vec<u8>,
        most: usize,
    ) -> Result<bool, LineFault>
        ensures given { IfOk result (λ is_ended. GivesEnded (lines_left self.old (R.remaining reader.old)) is_ended line.new.items (lines_left self.new (R.remaining reader.new))) }
        ensures long { IsErrOf result LineFault.TooLong → IsLongNext most (lines_left self.old (R.remaining reader.old)) }
    {
        if !self.next(reader, line, most)? {
            return Ok(false);
        }
        Ok(!self.has_ended())
    }

    // Moves the buffered bytes up to the next LF to the end of `line`. Returns `false` if there is no LF.
    fn take_piece(&mut self, line: &mut Vec<u8>) -> Result<bool, AllocError>
        ensures taken { IfOk result (λ found. TakesPiece found self.old.rest line.old.items line.new.items self.new.rest) }
        ensures same { self.new.ended ≡ self.old.ended }
    {
        let rest = &self.buffer[self.at..];
        match memchr(b'\n', rest) {
            Some(count) => {
                line.extend_from_slice(&rest[..count])?;
                self.at += count + 1;
                Ok(true)
            }
            None => {
                line.extend_from_slice(rest)?;
                self.at = self.buffer.len();
                Ok(false)
            }
        }
    }

    // Fills the empty buffer. Returns `false` at the end of the input.
    fn refill<R: Read>(&mut self, reader: &mut R) -> Result<bool, LineFault>
        ensures read { IfOk result (λ _. Consumes (R.remaining reader.old) (R.remaining reader.new) self.new.rest) }
        ensures more { IfOk result (λ more. Refills more self.new.rest (R.remaining reader.new)) }
        ensures same { self.new.ended ≡ self.old.ended }
        ensures fault { IsErrOf result LineFault.TooLong → ⊥ }
    {
        let mut piece = [0; 8192];
        let Ok(count) = reader.read(&mut piece) else {
            return Err(LineFault::Read);
        };
        self.at = 0;
        self.buffer.clear();
        self.buffer.extend_from_slice(&piece[..count])?;
        Ok(count > 0)
    }
}
