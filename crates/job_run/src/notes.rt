//! What is noted of a task beside the posts of its requests.

use job_script::Script;
use request_piece::Posted;
use std::alloc::{AllocError, Global};
use unit_book::Entry;

/// What is noted of a task while it does its commands. A run whose posts alone are wanted notes nothing, by `()`.
pub trait Notes: Drop {
    /// The notes of a task of a script, with room for all that its commands do, so that noting it takes no memory.
    fn of_task(alloc: Global, script: &Script, task: u16) -> Result<Self, AllocError>;

    /// The task issued its request with this number to a unit.
    fn issued(&mut self, unit: u16, number: u32);

    /// It begins to wait until all its requests were posted.
    fn waits(&mut self);

    /// It collected the post of one of its requests.
    fn collected(&mut self, posted: &Posted);

    /// A post that it had not collected when it ended.
    fn left(&mut self, posted: &Posted);

    /// The number of the last purge, close or reset after the first `before` entries of a trace, if there is one and it is
    /// noted.
    fn last_control(trace: &[Entry], before: usize) -> Option<usize>;

    /// It purged, closed or reset at a unit: the entry with this number.
    fn controlled(&mut self, unit: u16, entry: usize);
}

impl Notes for () {
    fn of_task(_alloc: Global, _script: &Script, _task: u16) -> Result<Self, AllocError> {
        Ok(())
    }

    fn issued(&mut self, _unit: u16, _number: u32) {}

    fn waits(&mut self) {}

    fn collected(&mut self, _posted: &Posted) {}

    fn left(&mut self, _posted: &Posted) {}

    fn last_control(_trace: &[Entry], _before: usize) -> Option<usize> {
        None
    }

    fn controlled(&mut self, _unit: u16, _entry: usize) {}
}
