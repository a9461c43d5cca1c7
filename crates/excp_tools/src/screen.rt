//! Standard output, whose reader may be gone.

use std::cell::Cell;
use std::io::{Error, ErrorKind, Result, Write};

/// A writer that notes if nothing reads any more what is written.
#[derive(Drop)]
pub struct Screen<'a, W> {
    writer: W,
    /// Set once nothing reads any more.
    is_broken: &'a Cell<bool>,
}

impl<'a, W: Write> Screen<'a, W> {
    pub fn new(writer: W, is_broken: &'a Cell<bool>) -> Self {
        Screen { writer, is_broken }
    }

    /// Notes whether a write failed because nothing reads any more.
    fn note(&self, error: &Error) {
        if error.kind() == ErrorKind::BrokenPipe {
            self.is_broken.set(true);
        }
    }
}

impl<'a, W: Write> Write for Screen<'a, W> {
    fn write(&mut self, bytes: &[u8]) -> Result<usize> {
        let written = self.writer.write(bytes);
        if let Err(error) = &written {
            self.note(error);
        }
        written
    }

    fn flush(&mut self) -> Result<()> {
        let flushed = self.writer.flush();
        if let Err(error) = &flushed {
            self.note(error);
        }
        flushed
    }
}
