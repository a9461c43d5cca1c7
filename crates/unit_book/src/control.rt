//! Controls: what is asked of a unit beside requests.

use crate::answer::{Closing, Purging};
use crate::entry::Mode;
use request_piece::Scope;

/// A purge, a close or a reset (DFSMSdfp Advanced Services, PURGE and CLOSE, and profile).
#[derive(Clone, Copy, PartialEq, Eq, Debug)]
pub enum Control {
    /// A purge of the requests of a DCB or of a task.
    Purge(Scope, Mode),
    /// A close of a DCB.
    Close(u16),
    /// A reset of the error flag of a DCB.
    Reset(u16),
}

/// What a control did.
#[derive(Clone, Copy, PartialEq, Eq, Debug)]
pub enum Controlling {
    /// A purge, and what it left.
    Purged(Purging),
    /// A close, and what it left.
    Closed(Closing),
    /// The flag of an open DCB was cleared.
    Reset,
}
