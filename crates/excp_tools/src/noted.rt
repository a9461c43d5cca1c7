//! What reports need of a task beside its posts.

use job_run::Notes;
use job_script::{Action, Script, ScriptCommand};
use request_piece::Posted;
use run_record::{TaskEvent, TaskNotes};
use std::alloc::{AllocError, Global};
use unit_book::Entry;

/// The events of a task, and the IOBs of its requests.
#[derive(Drop)]
pub struct Noted {
    pub notes: TaskNotes,
}

impl Notes for Noted {
    fn of_task(alloc: Global, script: &Script, task: u16) -> Result<Self, AllocError> {
        let units = script.set_up.units.len();
        let mut notes = TaskNotes::new(alloc, units)?;
        let mut events: usize = 0;
        for place in script.places_of(task) {
            let command = &script.commands[*place];
            if let Action::Excp(excp) = &command.action {
                notes.expect(alloc, excp.dcb.unit, excp.iob)?;
            }
            events = events.saturating_add(most_events(command, units));
        }
        notes.make_room(events)?;
        Ok(Noted { notes })
    }

    fn issued(&mut self, unit: u16, number: u32) {
        self.notes.note(TaskEvent::Issued { unit, number });
    }

    fn waits(&mut self) {
        self.notes.note(TaskEvent::Waited);
    }

    fn collected(&mut self, posted: &Posted) {
        self.notes.collect(posted);
    }

    fn left(&mut self, posted: &Posted) {
        self.notes.fill(posted);
    }

    fn last_control(trace: &[Entry], before: usize) -> Option<usize> {
        let after = trace.get(before..)?.iter().rev().position(is_control)?;
        Some(trace.len().saturating_sub(after))
    }

    fn controlled(&mut self, unit: u16, entry: usize) {
        self.notes.note(TaskEvent::Controlled { unit, entry });
    }
}

/// How many events a command makes at most.
fn most_events(command: &ScriptCommand, units: usize) -> usize {
    match &command.action {
        // it is issued, and its post is collected
        Action::Excp(_) => 2,
        Action::PurgeTask(_, _) => units,
        Action::Purge(_, _) | Action::Close(_) | Action::Reset(_) | Action::Wait => 1,
    }
}

/// Whether a task makes this entry.
fn is_control(entry: &Entry) -> bool {
    matches!(
        entry,
        Entry::Purge(_, _) | Entry::Close(_) | Entry::Reset(_)
    )
}
