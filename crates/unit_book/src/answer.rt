//! What the calls of a book answer.

use io_images::Code;
use request_piece::Name;
use thiserror::Error;

/// What `start` did.
#[derive(Clone, Copy, PartialEq, Eq, Debug)]
pub enum Starting {
    /// A program runs, or its status is pending.
    Busy,
    /// Nothing is active, and nothing waits.
    Idle,
    /// The program of this request was started.
    Started(Name),
    /// This request failed the extent check, and was posted 42.
    Violated(Name),
}

/// What `run` did.
#[derive(Clone, Copy, PartialEq, Eq, Debug)]
pub enum Running {
    /// No program runs.
    Quiet,
    /// This many commands were done; whether a status is pending now.
    Ran { commands: u32, pending: bool },
}

/// What `interrupt` did.
#[derive(Clone, Copy, PartialEq, Eq, Debug)]
pub enum Interruption {
    /// No status was pending.
    Quiet,
    /// This request is to be started again.
    Again(Name),
    /// This request was posted.
    Ended(Name, Code),
}

/// What a purge left.
#[derive(Clone, Copy, PartialEq, Eq, Debug)]
pub enum Purging {
    /// No request that it covers is active.
    Quiet,
    /// This request is still active.
    Active(Name),
}

/// What `close` left.
#[derive(Clone, Copy, PartialEq, Eq, Debug)]
pub enum Closing {
    /// This request of the DCB is active.
    Closing(Name),
    /// No request of the DCB is active: it is closed.
    Closed,
}

/// What a unit did to take the first request in flight to it.
#[derive(Clone, Copy, PartialEq, Eq, Debug)]
pub enum Intake {
    /// The book holds as many requests as it may.
    Held,
    /// Nothing is in flight.
    Quiet,
    /// This request arrived.
    Took(Name),
}

/// What a unit did to deliver the first posted value that is out.
#[derive(Clone, Copy, PartialEq, Eq, Debug)]
pub enum Delivery {
    /// Nothing is out.
    Quiet,
    /// The posted value of this request is on its way back.
    Delivered(Name),
    /// The post row of this request's task is full.
    Full(Name),
}

/// Why a request was not taken.
#[derive(Clone, Copy, PartialEq, Eq, Debug, Error)]
pub enum ArriveError {
    /// The book holds as many requests as it may.
    #[error("the book is full")]
    Held,
    #[error("no memory")]
    NoMemory,
}

/// Why a DCB was not opened.
#[derive(Clone, Copy, PartialEq, Eq, Debug, Error)]
pub enum OpenError {
    /// The unit has 65,535 DCBs.
    #[error("the unit has as many DCBs as it may")]
    TooManyDcbs,
    /// The extents are not such as the device takes.
    #[error("an extent is not one of the device")]
    BadExtent,
    #[error("no memory")]
    NoMemory,
}

/// Why a DCB was not purged, closed or reset.
#[derive(Clone, Copy, PartialEq, Eq, Debug, Error)]
pub enum DcbError {
    /// No DCB with this number was opened; for a reset, none is open.
    #[error("no such DCB")]
    NoSuchDcb,
    #[error("no memory")]
    NoMemory,
}
