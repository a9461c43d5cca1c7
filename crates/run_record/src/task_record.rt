//! The record of a task.

ghost use Rattle.std.specs.Prelude.{◌≡◌, [], IfOk, replicate};
ghost use Rattle.post_lines.specs.Slots.{filled, slots_of};
ghost use Rattle.run_record.specs.Record.{EndsAs, KeepsEvents, NotesEvent, events_of, iobs_of, requests_to};

use crate::task_event::TaskEvent;
use crate::task_notes::TaskNotes;
use post_lines::{End, PostSlot, Slots};
use request_piece::Posted;
use std::alloc::{AllocError, Global};

/// How a request ended, with its shown bytes and the slot of its IOB.
#[derive(Clone, Copy)]
pub struct EndedRequest<'a> {
    pub end: End,
    pub shown: &'a [u8],
    pub iob: &'a PostSlot,
}

/// What a task did: the posts of its requests, and what reports tell beside them.
#[derive(Drop)]
pub struct TaskRecord {
    pub slots: Slots,
    pub notes: TaskNotes,
}

impl TaskRecord {
    /// No request to `units` units, and no event.
    pub fn new(alloc: Global, units: usize) -> Result<TaskRecord, AllocError>
        ensures slots { IfOk result (λ task. slots_of task.slots ≡ replicate units []) }
        ensures iobs { IfOk result (λ task. iobs_of task.notes ≡ replicate units []) }
        ensures events { IfOk result (λ task. events_of task.notes ≡ []) }
    {
        let notes = TaskNotes::new(alloc, units)?;
        let slots = Slots::new(alloc, units)?;
        Ok(TaskRecord { slots, notes })
    }

    /// Notes that the task issued its next request to a unit, with this number. The request has its IOB at the address `iob`, and
    /// is to show `len` bytes at the address `show`. Makes room for its post and its collection. If memory runs out, the record
    /// is of no more use.
    pub fn issue(
        &mut self,
        alloc: Global,
        unit: u16,
        number: u32,
        iob: u32,
        show: u32,
        len: usize,
    ) -> Result<(), AllocError> {
        self.slots.expect(alloc, unit, show, len)?;
        self.notes.expect(alloc, unit, iob)?;
        self.notes.make_room(2)?;
        self.notes.note(TaskEvent::Issued { unit, number });
        Ok(())
    }

    /// Notes that the task collected the post of one of its requests.
    pub fn collect(&mut self, posted: &Posted)
        ensures slots { slots_of self.new.slots ≡ filled posted.now.unit posted.now (slots_of self.old.slots) }
        ensures iobs { iobs_of self.new.notes ≡ filled posted.now.unit posted.now (iobs_of self.old.notes) }
        ensures event { NotesEvent self.old.notes self.new.notes (TaskEvent.Collected posted.now.unit posted.now.name.seq) }
    {
        self.slots.fill(posted.unit(), posted);
        self.notes.collect(posted);
    }

    /// Notes a post that the task did not collect.
    pub fn leave(&mut self, posted: &Posted)
        ensures slots { slots_of self.new.slots ≡ filled posted.now.unit posted.now (slots_of self.old.slots) }
        ensures iobs { iobs_of self.new.notes ≡ filled posted.now.unit posted.now (iobs_of self.old.notes) }
        ensures events { KeepsEvents self.old.notes self.new.notes }
    {
        self.slots.fill(posted.unit(), posted);
        self.notes.fill(posted);
    }

    /// How many requests it issued to a unit.
    pub fn requests_to(&self, unit: usize) -> usize
        ensures { result ≡ requests_to self.now unit }
    {
        self.slots.units.get(unit).map_or(0, |slots| slots.len())
    }

    /// How its request with this number to a unit ended, if it was posted.
    pub fn ended(&self, unit: usize, number: usize) -> Option<EndedRequest<'_>>
        ensures { EndsAs self.now unit number result }
    {
        let slot = self.slots.get(unit, number)?;
        Some(EndedRequest {
            end: slot.end()?,
            shown: slot.shown(),
            iob: self.notes.iob(unit, number)?,
        })
    }
}
