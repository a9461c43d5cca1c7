//! The list of the printed lines.

ghost use Rattle.std.specs.Prelude.{◌≡◌, ◌<◌, ◌++◌, ◌∷◌, [], IfOk, length, nat_le};

use crate::printed_line::PrintedLine;
use std::alloc::{AllocError, Global};
use std::marker::Model;

/// The printed lines, with room for a number of them.
#[derive(Drop)]
pub struct Printout {
    lines: Vec<PrintedLine>,
    room: usize,
}

impl Model for Printout {
    ghost use Rattle.std.specs.Prelude.{◌≤◌, length, vec_capacity};
    ghost use Rattle.line_printer.specs.Paper.{Listing as Lines};

    ghost Value = { Lines };

    ghost view = { λ l. record { room = l.room; lines = l.lines.items } };

    ghost invariant = { λ l. (length l.lines.items ≤ l.room) × (l.room ≤ vec_capacity l.lines) };
}

impl Printout {
    /// No line, with room for `room` of them.
    pub fn new(alloc: Global, room: usize) -> Result<Self, AllocError>
        ensures { IfOk result (λ l. l ≡ record { room = room; lines = [] }) }
    {
        Ok(Printout {
            lines: Vec::with_capacity(alloc, room)?,
            room,
        })
    }

    /// Copies the printout: its lines, and its capacity. Fails only if memory runs out.
    pub fn copy(&self) -> Result<Self, AllocError>
        ensures { IfOk result (λ l. l ≡ self.now) }
    {
        let mut lines = Vec::with_capacity(*self.lines.allocator(), self.room)?;
        for line in &self.lines {
            lines.push(line.copy())?;
        }
        Ok(Printout {
            lines,
            room: self.room,
        })
    }

    /// Becomes the same as another listing with room for as many lines. Never allocates.
    pub fn copy_from(&mut self, from: &Self)
        requires { self.old.room ≡ from.now.room }
        ensures { self.new ≡ from.now }
    {
        self.lines.clear();
        for line in &from.lines {
            self.lines.push_reserved(line.copy());
        }
    }

    /// How many lines there is room for.
    pub fn room(&self) -> usize
        ensures { result ≡ self.now.room }
    {
        self.room
    }

    /// Whether there is no room for a line more.
    pub fn is_full(&self) -> bool
        ensures { result ≡ nat_le self.now.room (length self.now.lines) }
    {
        self.room <= self.lines.len()
    }

    /// Adds a line after the others.
    pub fn push(&mut self, line: PrintedLine)
        requires { length self.old.lines < self.old.room }
        ensures { self.new ≡ record { room = self.old.room; lines = self.old.lines ++ line ∷ [] } }
    {
        let _ = self.lines.push(line);
    }

    /// The lines, the oldest first.
    pub fn lines(&self) -> &[PrintedLine]
        ensures { result.now ≡ self.now.lines }
    {
        &self.lines
    }
}
