//! What a history says of an entry.

use io_images::Extent;
use post_lines::End;
use request_piece::{Issued, Name, Scope};
use unit_book::{Mode, ProcessingMethod};

/// An event of a unit: an entry of its trace, or the turns of a program that follow one another.
#[derive(Clone, Copy)]
pub struct UnitEvent<'t> {
    /// The number of its entry, from 1. Of turns it is the number of the first.
    pub entry: usize,
    pub kind: EventKind<'t>,
}

/// What happened, and what follows from the entries before it.
#[derive(Clone, Copy)]
pub enum EventKind<'t> {
    Opened {
        dcb: u16,
        method: ProcessingMethod,
        extents: &'t [Extent],
    },
    Arrived(&'t Issued),
    /// The number of the attempt counts from 1.
    Started {
        name: Name,
        attempt: u32,
    },
    /// How many commands ran, and in how many turns.
    Ran {
        name: Name,
        commands: u64,
        turns: u64,
    },
    Halted(Name),
    /// A purge, and the request that was active at it.
    Purged {
        scope: Scope,
        mode: Mode,
        active: Option<Name>,
    },
    Closed {
        dcb: u16,
    },
    Reset {
        dcb: u16,
    },
    /// A post, and whether it sets the error flag of its DCB.
    Posted {
        name: Name,
        end: End,
        cause: PostCause,
        sets_flag: bool,
    },
}

/// Why a request was posted, with the number of the entry that brought it about, if there is one.
#[derive(Clone, Copy)]
pub enum PostCause {
    /// Its program ended.
    Program,
    /// Its disk address is outside the extents of its DCB.
    OutsideExtents,
    /// It waited, and a purge covered it.
    Purge(usize),
    /// It waited, and its DCB was closed.
    Close(usize),
    /// Its DCB was not open when it arrived. The entry is the close.
    NotOpen(Option<usize>),
    /// It is related. The entry is the post of a related request of its DCB that ended in error.
    RelatedError(Option<usize>),
    /// A purge halted its program.
    Halt(usize),
    /// A purge with halt kept it from being tried again.
    NotTriedAgain(usize),
    /// No entry says. A legal trace has no such post.
    Unknown,
}

impl PostCause {
    /// The number of the entry that brought it about.
    pub fn entry(self) -> Option<usize> {
        match self {
            PostCause::Program | PostCause::OutsideExtents | PostCause::Unknown => None,
            PostCause::Purge(entry)
            | PostCause::Close(entry)
            | PostCause::Halt(entry)
            | PostCause::NotTriedAgain(entry) => Some(entry),
            PostCause::NotOpen(entry) | PostCause::RelatedError(entry) => entry,
        }
    }

    /// Why it was not started or not ended by its program, in words.
    pub fn in_words(self) -> Option<&'static str> {
        match self {
            PostCause::Program | PostCause::Unknown => None,
            PostCause::OutsideExtents => Some("its disk address is outside the extents"),
            PostCause::Purge(_) => Some("purged"),
            PostCause::Close(_) => Some("its DCB was closed"),
            PostCause::NotOpen(_) => Some("its DCB is not open"),
            PostCause::RelatedError(_) => Some("a related request ended in error"),
            PostCause::Halt(_) => Some("halted"),
            PostCause::NotTriedAgain(_) => Some("not tried again"),
        }
    }

    /// Whether the request was posted without a start.
    pub fn is_before_start(self) -> bool {
        !matches!(
            self,
            PostCause::Program | PostCause::Halt(_) | PostCause::NotTriedAgain(_)
        )
    }
}
