//! What reports tell of a task beside its posts.

ghost use Rattle.std.specs.Prelude.{◌≡◌, ◌+◌, ◌≤◌, [], IfOk, OnErr, OnOk, replicate, vec_len};
ghost use Rattle.std.specs.Option.{option_copied};
ghost use Rattle.post_lines.specs.Slots.{expected, filled};

use crate::task_event::TaskEvent;
use post_lines::{PostSlot, Slots};
use request_piece::Posted;
use std::alloc::{AllocError, Global};

/// The length of an IOB.
const IOB_LEN: usize = 40;

/// The IOBs of a task's requests to each unit, in order of their numbers, and its events, in their order. The room for an IOB
/// or an event is made before it happens, so that noting it takes no memory.
#[derive(Drop)]
pub struct TaskNotes {
    iobs: Slots,
    events: Vec<TaskEvent>,
    /// How many of the events happened. The others are reserved.
    happened: usize,
    ghost few: { happened ≤ vec_len events },
}

impl TaskNotes {
    ghost use Rattle.run_record.specs.Record.{KeepsEvents, NotesEvent, event_room, events_of, iob_slot, iobs_of};

    /// No request to `units` units, and no event.
    pub fn new(alloc: Global, units: usize) -> Result<TaskNotes, AllocError>
        ensures iobs { IfOk result (λ notes. iobs_of notes ≡ replicate units []) }
        ensures events { IfOk result (λ notes. events_of notes ≡ []) }
        ensures room { IfOk result (λ notes. event_room notes ≡ 0) }
    {
        Ok(TaskNotes {
            iobs: Slots::new(alloc, units)?,
            events: Vec::new(alloc),
            happened: 0,
        })
    }

    /// Makes room for the IOB of the next request to a unit, which is at this address.
    pub fn expect(&mut self, alloc: Global, unit: u16, address: u32) -> Result<(), AllocError>
        ensures ok { OnOk result (iobs_of self.new ≡ expected unit address 40 (iobs_of self.old)) }
        ensures err { OnErr result (iobs_of self.new ≡ iobs_of self.old) }
        ensures events { KeepsEvents self.old self.new }
    {
        self.iobs.expect(alloc, unit, address, IOB_LEN)
    }

    /// Makes room for `count` events more.
    pub fn make_room(&mut self, count: usize) -> Result<(), AllocError>
        ensures iobs { iobs_of self.new ≡ iobs_of self.old }
        ensures events { events_of self.new ≡ events_of self.old }
        ensures ok { OnOk result (event_room self.new ≡ event_room self.old + count) }
        ensures err { OnErr result (event_room self.new ≡ event_room self.old) }
    {
        let Some(room) = self.events.len().checked_add(count) else {
            return Err(AllocError);
        };
        self.events.resize(room, TaskEvent::Waited)
    }

    /// Notes an event, if there is room for it.
    pub fn note(&mut self, event: TaskEvent)
        ensures iobs { iobs_of self.new ≡ iobs_of self.old }
        ensures events { NotesEvent self.old self.new event }
    {
        if self.happened < self.events.len() {
            self.events[self.happened] = event;
            self.happened += 1;
        }
    }

    /// The events of the task, in their order.
    pub fn events(&self) -> &[TaskEvent]
        ensures { result.now ≡ events_of self.now }
    {
        &self.events[..self.happened]
    }

    /// Notes that the task collected the post of one of its requests.
    pub fn collect(&mut self, posted: &Posted)
        ensures iobs { iobs_of self.new ≡ filled posted.now.unit posted.now (iobs_of self.old) }
        ensures event { NotesEvent self.old self.new (TaskEvent.Collected posted.now.unit posted.now.name.seq) }
    {
        self.fill(posted);
        self.note(TaskEvent::Collected {
            unit: posted.unit(),
            number: posted.name().seq,
        });
    }

    /// Notes the IOB of a request that was posted.
    pub fn fill(&mut self, posted: &Posted)
        ensures iobs { iobs_of self.new ≡ filled posted.now.unit posted.now (iobs_of self.old) }
        ensures events { KeepsEvents self.old self.new }
    {
        self.iobs.fill(posted.unit(), posted);
    }

    /// The slot of the IOB of its request with this number to a unit.
    pub fn iob(&self, unit: usize, number: usize) -> Option<&PostSlot>
        ensures { option_copied result ≡ iob_slot self.now unit number }
    {
        self.iobs.get(unit, number)
    }
}
