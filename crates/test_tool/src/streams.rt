//! Readers and writers that are slow or fail, and scripts that run between them.

use dbm_script::{Notation, ScriptFault, run_script};
use sdbm_addr::{KeyBytes, PageSize};
use sdbm_files::Image;
use std::alloc::{Allocator, Global};
use std::io;
use std::io::{ErrorKind, Read, Write};

/// A reader of a text. It returns at most `step` bytes a call, and fails once, when a given number of bytes is left.
#[derive(Drop)]
pub struct Given<'a> {
    pub text: &'a [u8],
    pub step: usize,
    pub fails: Option<(usize, ErrorKind)>,
}

impl Read for Given<'_> {
    fn read(&mut self, buf: &mut [u8]) -> io::Result<usize> {
        if let Some((left, kind)) = self.fails
            && left == self.text.len()
        {
            self.fails = None;
            return Err(io::Error::from(kind));
        }
        let count = self.text.len().min(self.step).min(buf.len());
        let (first, others) = self.text.split_at(count);
        buf[..count].copy_from_slice(first);
        self.text = others;
        Ok(count)
    }
}

/// A reader of empty lines, which it does not store.
#[derive(Drop)]
pub struct EmptyLines {
    pub left: usize,
}

impl Read for EmptyLines {
    fn read(&mut self, buf: &mut [u8]) -> io::Result<usize> {
        let count = self.left.min(buf.len());
        for byte in &mut buf[..count] {
            *byte = b'\n';
        }
        self.left -= count;
        Ok(count)
    }
}

/// A writer that accepts at most `step` bytes a call, and fails once, when it has accepted a given number.
#[derive(Drop)]
pub struct Collected {
    pub text: Vec<u8>,
    pub step: usize,
    pub fails: Option<(usize, ErrorKind)>,
}

impl Collected {
    /// Creates a writer that has accepted nothing.
    pub fn new(global: Global, step: usize, fails: Option<(usize, ErrorKind)>) -> Self {
        Collected {
            text: Vec::new(global),
            step,
            fails,
        }
    }
}

impl Write for Collected {
    fn write(&mut self, buf: &[u8]) -> io::Result<usize> {
        if let Some((most, kind)) = self.fails
            && most <= self.text.len()
        {
            self.fails = None;
            return Err(io::Error::from(kind));
        }
        let count = buf.len().min(self.step);
        self.text.extend_from_slice(&buf[..count])?;
        Ok(count)
    }

    fn flush(&mut self) -> io::Result<()> {
        Ok(())
    }
}

/// Runs a script on an empty database, and returns the number of pairs afterwards.
pub fn run<A: Allocator + Copy, R: Read>(
    alloc: A,
    reader: &mut R,
    writer: &mut Collected,
) -> Result<usize, ScriptFault> {
    let image = Image::empty(alloc, KeyBytes::Signed, PageSize::Small);
    match run_script(alloc, &Notation::Hex, reader, writer, image) {
        Ok(after) => Ok(after.count()),
        Err(fault) => Err(fault),
    }
}

/// A reader of a text that returns at most `step` bytes a call.
pub fn giving(text: &[u8], step: usize) -> Given<'_> {
    Given {
        text,
        step,
        fails: None,
    }
}

/// The answers of a script, from streams that do not fail.
pub fn answers(global: Global, script: &[u8]) -> Vec<u8> {
    let mut writer = Collected::new(global, 4096, None);
    let _came = run(global, &mut giving(script, 4096), &mut writer);
    writer.text
}
