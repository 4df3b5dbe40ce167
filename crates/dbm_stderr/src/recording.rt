//! Reads standard input ahead, and records it for notes.

ghost use Rattle.std.specs.Prelude.{◌≡◌, ◌<◌, ◌≤◌, ◌++◌, length, take, drop};

use std::alloc::Global;
use std::io::{self, ErrorKind, Read};

// The number of bytes to read ahead at once.
const PIECE: usize = 65_536;

/// A reader that records the bytes that it returns, for a note. If memory runs out, the record is empty.
#[derive(Drop)]
pub struct RecordingReader<R: Read> {
    reader: R,
    // The bytes that were read ahead. The first `given` of them were returned.
    ahead: Vec<u8>,
    given: usize,
    text: Vec<u8>,
    records: bool,
    has_lost: bool,
}

impl<R: Read> RecordingReader<R> {
    /// Wraps a reader before anything is read. If `records` is `false`, `text` stays empty.
    pub fn new(alloc: Global, reader: R, records: bool) -> Self {
        RecordingReader {
            reader,
            ahead: Vec::new(alloc),
            given: 0,
            text: Vec::new(alloc),
            records,
            has_lost: false,
        }
    }

    /// Reads ahead about `most` bytes, which later reads return. Stops at an error or a failed allocation, and reports neither.
    pub fn read_ahead(&mut self, most: usize) {
        for _ in 0..u64::MAX {
            if self.ahead.len() >= most || !self.read_piece() {
                break;
            }
        }
    }

    // Reads a piece ahead. Returns `true` if more may follow.
    fn read_piece(&mut self) -> bool {
        let len = self.ahead.len();
        if self.ahead.resize(len.saturating_add(PIECE), 0).is_err() {
            return false;
        }
        let (count, more) = match self.reader.read(&mut self.ahead[len..]) {
            Ok(count) => (count, count > 0),
            Err(error) => (0, error.kind() == ErrorKind::Interrupted),
        };
        self.ahead.truncate(len.saturating_add(count));
        more
    }

    // Copies bytes that were read ahead to `buf`, and returns their number.
    fn give(&mut self, buf: &mut [u8]) -> usize
        requires some { self.old.given < length self.old.ahead.items }
        ensures count { result ≤ length buf.old }
        ensures none { result ≡ 0 → length buf.old ≡ 0 }
        ensures long { length buf.new ≡ length buf.old }
        ensures bytes { drop self.old.given self.old.ahead.items ≡ take result buf.new ++ drop self.new.given self.new.ahead.items }
        ensures reader { self.new.reader ≡ self.old.reader }
    {
        let left = &self.ahead[self.given..];
        let count = left.len().min(buf.len());
        buf[..count].copy_from_slice(&left[..count]);
        self.given += count;
        count
    }

    /// Returns the recorded bytes, or no bytes if memory ran out.
    pub fn text(&self) -> &[u8] {
        if self.has_lost {
            return &[];
        }
        self.text.as_slice()
    }
}

impl<R: Read> Read for RecordingReader<R> {
    ghost use Rattle.std.specs.Prelude.{drop};
    ghost use Rattle.std.specs.Io.KnownBytes.{prepend_known};

    ghost remaining = { λ recording. prepend_known (drop recording.given recording.ahead.items) (R.remaining recording.reader) };

    fn read(&mut self, buf: &mut [u8]) -> io::Result<usize> {
        let count = if self.given < self.ahead.len() {
            self.give(buf)
        } else {
            self.reader.read(buf)?
        };
        if self.records && !self.has_lost {
            self.has_lost = self.text.extend_from_slice(&buf[..count]).is_err();
        }
        Ok(count)
    }
}
