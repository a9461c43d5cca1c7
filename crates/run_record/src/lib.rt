//! The record of a run: what its tasks did and how their requests ended, and the books of its units. It knows no script.
//!
//! Tests: tests/cases/scripts, tests/cases/histories, the group reports of tests/run.
#![tactic(auto)]

mod run;
mod task_event;
mod task_notes;
mod task_record;

pub use run::{MediumCapacity, Run, UnitRecord};
pub use task_event::TaskEvent;
pub use task_notes::TaskNotes;
pub use task_record::{EndedRequest, TaskRecord};
