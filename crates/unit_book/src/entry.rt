//! The trace of a unit: its entries.

ghost use Rattle.std.specs.Prelude.{◌≡◌, IfOk};
ghost use Rattle.unit_book.specs.Renewal.{is_opening_or_close};

use crate::dcb::ProcessingMethod;
use crate::extents::Extents;
use io_images::{Code, Csw};
use request_piece::{Issued, Name, Scope};
use std::alloc::AllocError;

/// Whether a purge lets the active request go on to its end, or halts its program (DFSMSdfp Advanced
/// Services, PURGE).
#[derive(Clone, Copy, PartialEq, Eq, Debug)]
pub enum Mode {
    Quiesce,
    Halt,
}

/// What happened at a unit (profile).
#[derive(Drop)]
pub enum Entry {
    /// A DCB was opened: its number, what it is for, and its extents.
    Opened(u16, ProcessingMethod, Extents),
    /// A request arrived.
    Arrive(Issued),
    /// The program of a request was started.
    Start(Name),
    /// This many commands of the active request were done.
    Ran(Name, u32),
    /// The program of the active request was halted.
    Halted(Name),
    /// A purge of a DCB or of a task.
    Purge(Scope, Mode),
    /// A DCB was closed.
    Close(u16),
    /// The error flag of a DCB was cleared.
    Reset(u16),
    /// A request was posted: its CSW, its sense bytes and its completion code.
    Post(Name, Csw, u16, Code),
}

impl Entry {
    /// Copies an entry of a trace. Fails if memory runs out, or the storage of a request has too many owners.
    pub(crate) fn copy(&self) -> Result<Entry, AllocError>
        ensures { IfOk result (λ entry. entry ≡ self.now) }
    {
        Ok(match self {
            Entry::Opened(dcb, method, extents) => Entry::Opened(*dcb, *method, extents.copy()?),
            Entry::Arrive(issued) => Entry::Arrive(issued.copy()?),
            Entry::Start(name) => Entry::Start(*name),
            Entry::Ran(name, commands) => Entry::Ran(*name, *commands),
            Entry::Halted(name) => Entry::Halted(*name),
            Entry::Purge(scope, mode) => Entry::Purge(*scope, *mode),
            Entry::Close(dcb) => Entry::Close(*dcb),
            Entry::Reset(dcb) => Entry::Reset(*dcb),
            Entry::Post(name, csw, sense, code) => Entry::Post(*name, *csw, *sense, *code),
        })
    }

    /// Whether a DCB was opened or closed.
    pub(crate) fn is_opening_or_close(&self) -> bool
        ensures { result ≡ is_opening_or_close self.now }
    {
        matches!(self, Entry::Opened(..) | Entry::Close(_))
    }
}
