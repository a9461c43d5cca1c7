//! The sizes of rows and books.

ghost use Rattle.std.specs.Prelude.{◌≡◌, ◌==◌, ◌≤◌, not};
ghost use Rattle.test_locked_steps.specs.Rooms.{book_size, no_sizes, said_of, size_of, with_said};

use crate::room_line::RoomLine;
use job_script::LIMIT;

/// The fewest bytes of the line of an EXCP, with its line feed.
const LEAST_EXCP: usize = 29;

/// The size by default. No scenario has more requests, since it has no more lines of an EXCP.
const ALWAYS: usize = LIMIT / LEAST_EXCP;

/// The sizes of all intake rows, of all post rows, and of each book, in requests. A size that no line sets is 0.
#[derive(Clone, Copy)]
pub struct Rooms {
    intake: u16,
    post: u16,
    books: [u16; 64],
}

impl Rooms {
    /// No line sets a size yet.
    pub fn new() -> Self
        ensures { result ≡ no_sizes }
    {
        Rooms {
            intake: 0,
            post: 0,
            books: [0; 64],
        }
    }

    /// Whether a line has set the size of this row or this book.
    pub fn has(&self, room: RoomLine) -> bool
        ensures { result ≡ not (said_of self.now room == 0) }
    {
        let count = match room {
            RoomLine::Intake(_) => self.intake,
            RoomLine::Post(_) => self.post,
            RoomLine::Book(unit, _) => self.books.get(usize::from(unit)).copied().unwrap_or(0),
        };
        count != 0
    }

    /// Sets the size that a line says.
    pub fn set(&mut self, room: RoomLine)
        ensures { self.new ≡ with_said room self.old }
    {
        match room {
            RoomLine::Intake(count) => self.intake = count,
            RoomLine::Post(count) => self.post = count,
            RoomLine::Book(unit, count) => {
                let unit = usize::from(unit);
                if unit < self.books.len() {
                    self.books[unit] = count;
                }
            }
        }
    }

    /// How many requests an intake row holds.
    pub fn intake(&self) -> usize
        ensures size { result ≡ size_of self.now.intake }
        ensures some { 1 ≤ result }
        ensures few { result ≤ 65536 }
    {
        room_of(self.intake)
    }

    /// How many posts a post row holds.
    pub fn post(&self) -> usize
        ensures size { result ≡ size_of self.now.post }
        ensures some { 1 ≤ result }
        ensures few { result ≤ 65536 }
    {
        room_of(self.post)
    }

    /// How many requests the book of a unit holds.
    pub fn book(&self, unit: usize) -> usize
        ensures size { result ≡ book_size self.now unit }
        ensures some { 1 ≤ result }
        ensures few { result ≤ 65536 }
    {
        room_of(self.books.get(unit).copied().unwrap_or(0))
    }
}

/// The size that a line sets, or else the default.
fn room_of(count: u16) -> usize
    ensures size { result ≡ size_of count }
    ensures some { 1 ≤ result }
    ensures few { result ≤ 65536 }
{
    if count == 0 {
        ALWAYS
    } else {
        usize::from(count)
    }
}
