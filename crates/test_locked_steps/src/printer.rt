//! Prints the answer of each event at once, and each failed expectation.

use job_script::JobError;
use script_words::{after_words, next_word};
use std::alloc::Global;
use std::io;
use std::io::Write;

/// Prints answers on one writer, and failed expectations on another.
#[derive(Drop)]
pub struct Printer<'a, W: Write, E: Write> {
    alloc: Global,
    out: &'a mut W,
    errors: &'a mut E,
    /// How many bytes of the last answer were compared with an expectation.
    compared: usize,
    /// Whether all expectations are met so far.
    is_met: bool,
}

impl<'a, W: Write, E: Write> Printer<'a, W, E> {
    /// Has printed nothing yet.
    pub fn new(alloc: Global, out: &'a mut W, errors: &'a mut E) -> Self {
        Printer {
            alloc,
            out,
            errors,
            compared: 0,
            is_met: true,
        }
    }

    /// Whether all expectations are met so far.
    pub fn is_met(&self) -> bool {
        self.is_met
    }

    /// Prints at once the lines of an answer, each after the words of its event, and the lines of a view.
    pub fn answer(&mut self, event: &[u8], answer: &[u8], view: &[u8]) -> Result<(), JobError> {
        self.compared = 0;
        for line in answer.split(|byte| *byte == b'\n') {
            self.write_line(event, line).or(Err(JobError::NotWritten))?;
        }
        self.out.write_all(view).or(Err(JobError::NotWritten))?;
        self.out.flush().or(Err(JobError::NotWritten))
    }

    fn write_line(&mut self, event: &[u8], line: &[u8]) -> io::Result<()> {
        let mut rest = event;
        let mut gap: &[u8] = b"";
        for _ in 0..event.len() {
            let Some((word, after)) = next_word(rest) else {
                break;
            };
            self.out.write_all(gap)?;
            self.out.write_all(word)?;
            gap = b" ";
            rest = after;
        }
        self.out.write_all(b": ")?;
        self.out.write_all(line)?;
        self.out.write_all(b"\n")
    }

    /// Compares the next line of the last answer with the text of an `expect` line, which has this number.
    pub fn expect(&mut self, number: usize, line: &[u8], answer: &[u8]) -> Result<(), JobError> {
        let after = after_words(line, 1);
        let expected = trimmed(after);
        let answered = self.next_of(answer);
        if answered == Some(expected) {
            return Ok(());
        }
        match answered {
            Some(answered) => self.tell(number, expected, answered),
            None => self.tell(number, expected, b"nothing"),
        }
    }

    /// Prints an expectation that is not met.
    fn tell(&mut self, number: usize, expected: &[u8], answered: &[u8]) -> Result<(), JobError> {
        self.is_met = false;
        let mut text = Vec::new(self.alloc);
        write!(text, "<stdin>:{number}: expected: ").or(Err(JobError::NoMemory))?;
        text.extend_from_slice(expected)?;
        text.extend_from_slice(b"; answered: ")?;
        text.extend_from_slice(answered)?;
        text.push(b'\n')?;
        self.errors.write_all(&text).or(Err(JobError::NotWritten))
    }

    /// The next line of an answer, if one is left.
    fn next_of<'b>(&mut self, answer: &'b [u8]) -> Option<&'b [u8]> {
        if answer.is_empty() {
            return None;
        }
        let rest = answer.get(self.compared..)?;
        let line = rest.split(|byte| *byte == b'\n').next()?;
        self.compared = self.compared.saturating_add(line.len()).saturating_add(1);
        Some(line)
    }
}

/// A text without the blanks at its ends.
fn trimmed(text: &[u8]) -> &[u8] {
    let begin = text.iter().position(|byte| *byte != b' ');
    let end = text.iter().rposition(|byte| *byte != b' ');
    match (begin, end) {
        (Some(begin), Some(end)) => text.get(begin..=end).unwrap_or(&[]),
        _ => &[],
    }
}
