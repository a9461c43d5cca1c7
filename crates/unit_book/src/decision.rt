//! What the calls of a book go by.

use io_images::Code;
use request_piece::Name;
use unit_queue::Selection;

/// What became of a start.
#[derive(Clone, Copy, PartialEq, Eq, Debug)]
pub(crate) enum Begun {
    /// A program runs, or its status is pending.
    Busy,
    /// Nothing is active, and nothing waits.
    Idle,
    /// The program of this request was started.
    Started(Name),
    /// This request failed the extent check and was posted, which dooms those of the waiting requests that the
    /// selection has.
    Violated { name: Name, doom: Option<Selection> },
}

/// What became of the active request when its status was taken.
#[derive(Clone, Copy, PartialEq, Eq, Debug)]
pub(crate) enum Taken {
    /// No status was pending.
    Quiet,
    /// This request awaits its restart.
    Again(Name),
    /// This request was posted, which dooms those of the waiting requests that the selection has.
    Posted {
        name: Name,
        code: Code,
        doom: Option<Selection>,
    },
}
