//! How far the reading or writing of a large file is, on a terminal.

use crate::file_name::FileName;
use std::io::{IsTerminal, Read, Result, Write};

/// How many bytes go by from one line of progress to the next, and before the first.
const STEP: u64 = 64 << 20;

/// A file that is read or written. If standard error is a terminal, a line there says how many bytes went by.
#[derive(Drop)]
pub struct Progress<'a, F> {
    rt: &'a HostRuntime,
    name: &'a str,
    /// What is done with the bytes, as "read".
    done: &'static str,
    file: F,
    is_terminal: bool,
    bytes: u64,
    /// How many steps the line says; 0 if there is none.
    steps: u64,
}

impl<'a, F> Progress<'a, F> {
    /// Begins to read or to write the file of this name.
    pub fn new(rt: &'a HostRuntime, name: &'a str, done: &'static str, file: F) -> Self {
        Progress {
            rt,
            name,
            done,
            file,
            is_terminal: rt.stderr().is_terminal(),
            bytes: 0,
            steps: 0,
        }
    }

    /// Notes that bytes went by. The line is written anew after each step.
    fn note(&mut self, count: usize) {
        self.bytes = self.bytes.saturating_add(count as u64);
        let steps = self.bytes / STEP;
        if self.is_terminal && steps != self.steps {
            self.steps = steps;
            let _ = eprint!(self.rt;
                "\rexcp: {}: {} MiB {}",
                FileName(self.name),
                self.bytes >> 20,
                self.done
            );
        }
    }

    /// The file itself.
    pub fn file(&self) -> &F {
        &self.file
    }

    /// Removes the line.
    pub fn end(&mut self) {
        if self.steps != 0 {
            self.steps = 0;
            let _ = eprint!(self.rt; "\r\x1b[K");
        }
    }
}

impl<'a, F: Read> Read for Progress<'a, F> {
    fn read(&mut self, buf: &mut [u8]) -> Result<usize> {
        let count = self.file.read(buf)?;
        self.note(count);
        Ok(count)
    }
}

impl<'a, F: Write> Write for Progress<'a, F> {
    fn write(&mut self, buf: &[u8]) -> Result<usize> {
        let count = self.file.write(buf)?;
        self.note(count);
        Ok(count)
    }

    fn flush(&mut self) -> Result<()> {
        self.file.flush()
    }
}
