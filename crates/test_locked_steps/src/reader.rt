//! The lines of a scenario. A line is read only when it is wanted, so a program may wait for one answer before it writes the
//! next line.

use crate::line::ScenarioLine;
use job_script::{JobError, LIMIT, LineError};
use script_words::LineWords;
use std::alloc::Global;
use std::io::{BufRead, BufReader, ErrorKind, Read, Take};

/// The lines of a reader of at most 1,048,576 bytes.
#[derive(Drop)]
pub struct ScenarioReader<R: Read + Drop> {
    alloc: Global,
    reader: BufReader<Take<R>>,
    /// The bytes of the current line.
    line: Vec<u8>,
    /// How many lines were read.
    pub number: usize,
    /// How many bytes were read.
    read: usize,
}

impl<R: Read + Drop> ScenarioReader<R> {
    /// The lines of this reader, before the first one.
    pub fn new(alloc: Global, reader: R) -> Result<Self, JobError> {
        let Ok(reader) = BufReader::new(alloc, reader.take(LIMIT as u64 + 1)) else {
            return Err(JobError::NoMemory);
        };
        Ok(ScenarioReader {
            alloc,
            reader,
            line: Vec::new(alloc),
            number: 0,
            read: 0,
        })
    }

    /// Reads the bytes of the next line, and returns whether there is one.
    pub fn next(&mut self) -> Result<bool, JobError> {
        self.line.clear();
        let count = match self.reader.read_until(b'\n', &mut self.line) {
            Ok(count) => count,
            Err(error) if error.kind() == ErrorKind::OutOfMemory => return Err(JobError::NoMemory),
            Err(_) => return Err(JobError::Unreadable),
        };
        self.read = self.read.saturating_add(count);
        if self.read > LIMIT {
            return Err(JobError::TooLong);
        }
        if count == 0 {
            return Ok(false);
        }
        self.number = self.number.saturating_add(1);
        Ok(true)
    }

    /// What the line that was read last says.
    pub fn line(&self) -> Result<ScenarioLine, LineError> {
        let mut words = LineWords::new();
        words.scan(self.current());
        ScenarioLine::read(self.alloc, self.number, &words)
    }

    /// The line that was read last, without its line feed.
    pub fn current(&self) -> &[u8] {
        without_feed(&self.line)
    }
}

/// A line without its line feed.
fn without_feed(line: &[u8]) -> &[u8] {
    match line {
        [line @ .., b'\n'] => line,
        line => line,
    }
}
