//! What the tasks of a script do.

use io_area::Area;
use std::alloc::Global;
use std::sync::Arc;
use unit_book::Mode;

/// A DCB of a unit, by the numbers of both.
#[derive(Clone, Copy, PartialEq, Eq)]
pub struct DcbName {
    pub unit: u16,
    pub number: u16,
}

/// An EXCP on a copy of an area, and the bytes of the posted area that are shown.
#[derive(Drop)]
pub struct Excp {
    pub dcb: DcbName,
    /// The address of the IOB.
    pub iob: u32,
    pub area: Arc<Area, Global>,
    /// The address of the bytes that are shown.
    pub show: u32,
    /// How many bytes are shown.
    pub len: u64,
}

/// What a task does.
#[derive(Drop)]
pub enum Action {
    Excp(Excp),
    /// Purges the requests of a DCB.
    Purge(DcbName, Mode),
    /// Purges the requests of the task with this number, on all units.
    PurgeTask(u16, Mode),
    /// Closes a DCB.
    Close(DcbName),
    /// Clears the error flag of a DCB.
    Reset(DcbName),
    /// Goes on when all requests of the task were posted.
    Wait,
}

/// A command, its line, and the task that gives it.
#[derive(Drop)]
pub struct ScriptCommand {
    pub line: usize,
    pub task: u16,
    pub action: Action,
}
