//! Ends a session at a line `quit` or `exit` that is typed at a terminal.

use std::io::{self, Read};

/// Standard input of a session. At a terminal, a line `quit` or `exit` ends the input. A terminal returns at most one line from each read.
/// If Ctrl-D is typed within a line, the line comes in two reads, and a second part `quit` or `exit` ends the input too.
#[derive(Drop)]
pub struct TerminalLines<'a, R: Read> {
    reader: &'a mut R,
    is_terminal: bool,
    is_over: bool,
}

impl<'a, R: Read> TerminalLines<'a, R> {
    /// Wraps the reader. Nothing was read from it.
    pub fn new(reader: &'a mut R, is_terminal: bool) -> Self {
        TerminalLines {
            reader,
            is_terminal,
            is_over: false,
        }
    }
}

impl<R: Read> Read for TerminalLines<'_, R> {
    ghost use Rattle.std.specs.Prelude.{None};

    ghost remaining = { λ lines. None };

    fn read(&mut self, buf: &mut [u8]) -> io::Result<usize> {
        if self.is_over {
            return Ok(0);
        }
        let count = self.reader.read(buf)?;
        if self.is_terminal && is_end(&buf[..count]) {
            self.is_over = true;
            return Ok(0);
        }
        Ok(count)
    }
}

fn is_end(line: &[u8]) -> bool {
    line == b"quit\n".as_slice() || line == b"exit\n".as_slice()
}
