//! A line that was printed.

ghost use Rattle.std.specs.Prelude.{◌≡◌, ◌≤◌, length};
ghost use Rattle.line_printer.specs.Printer.{columns_of};

use crate::paper::PaperPosition;
use device_port::Given;
use std::marker::Model;

/// The columns of a line.
const COLUMNS: usize = 132;

/// A line that was printed, as contracts see it: its position and its bytes.
#[derive(Drop)]
pub struct PrintedLine {
    position: PaperPosition,
    len: usize,
    columns: [u8; COLUMNS],
}

impl Model for PrintedLine {
    ghost use Rattle.std.specs.Prelude.{◌≤◌, take};
    ghost use Rattle.line_printer.specs.Paper.{Line};

    ghost Value = { Line };

    ghost view = { λ l. record { at = l.position; bytes = take l.len l.columns } };

    ghost invariant = { λ l. l.len ≤ 132 };
}

impl PrintedLine {
    /// A line of the first bytes that a program gives, up to the number of columns.
    pub(crate) fn new(position: PaperPosition, given: &Given<'_>) -> Self
        ensures { result ≡ record { at = position; bytes = columns_of given.now } }
    {
        let len = given.len().min(COLUMNS);
        let mut columns = [0; COLUMNS];
        given.fill(&mut columns);
        PrintedLine {
            position,
            len,
            columns,
        }
    }

    /// Copies the printed line. Never allocates.
    pub(crate) fn copy(&self) -> Self
        ensures { result ≡ self.now }
    {
        PrintedLine {
            position: self.position,
            len: self.len,
            columns: self.columns,
        }
    }

    /// The position of the line: page and line.
    pub fn position(&self) -> PaperPosition
        ensures { result ≡ self.now.at }
    {
        self.position
    }

    /// The bytes of the line, at most 132.
    pub fn bytes(&self) -> &[u8]
        ensures bytes { result.now ≡ self.now.bytes }
        ensures short { length result.now ≤ 132 }
    {
        &self.columns[..self.len]
    }
}
