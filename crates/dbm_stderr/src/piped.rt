//! Standard output, which may be a pipe whose reader is gone.

use std::io::{self, ErrorKind, Write};

/// A writer that notices when it writes to a pipe whose reader is gone.
#[derive(Drop)]
pub struct PipeWriter<W: Write> {
    writer: W,
    has_no_reader: bool,
}

impl<W: Write> PipeWriter<W> {
    /// Wraps a writer before anything is written.
    pub fn new(writer: W) -> Self {
        PipeWriter {
            writer,
            has_no_reader: false,
        }
    }

    /// Returns `true` if the last write that failed was to a pipe without a reader.
    pub fn has_no_reader(&self) -> bool {
        self.has_no_reader
    }
}

impl<W: Write> Write for PipeWriter<W> {
    ghost contents = { λ piped. W.contents piped.writer };

    fn write(&mut self, buf: &[u8]) -> io::Result<usize> {
        let written = self.writer.write(buf);
        if let Err(error) = &written {
            self.has_no_reader = error.kind() == ErrorKind::BrokenPipe;
        }
        written
    }

    fn flush(&mut self) -> io::Result<()> {
        self.writer.flush()
    }
}
