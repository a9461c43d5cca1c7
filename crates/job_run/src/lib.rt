//! The run of a script: its tasks, each on a thread of its own, beside channel workers and interruption handlers.
//!
//! A task does its commands in order: it issues requests, waits for their posts, purges, closes and resets. Each request has
//! a slot, which its post fills as it is collected. A task that runs out of memory, or hears of a worker that does,
//! ends. Then the run ends too, with all threads joined.
//!
//! The parts of `run_script` are public. What is noted of tasks beside their posts is a type parameter, [`Notes`].
//! [`run_parsed`] runs a script whose units may be given devices that are mounted already. [`run_on`] runs a script on rows and
//! books of any size. [`ScriptTasks`] is what the tasks do, for a run by another gate than the alarm of its tasks
//! (`system_threads::run_beside`). For tasks that do more or less, a [`Job`] does the commands of one. [`ended`] is the
//! result of a run, and [`write`] prints it.
//!
//! Tests: test_system (`jobs`), tests/cases/scripts, the groups random and purges of tests/run.
#![tactic(auto)]

mod command_fault;
mod job;
pub mod laws;
mod notes;
mod output;
mod rooms;
mod run;
mod script_tasks;
mod task_end;
mod task_error;
mod unit_calls;

pub use job::Job;
pub use notes::Notes;
pub use output::write;
pub use run::{Finished, ended, read_and_run, run_on, run_parsed, run_script};
pub use script_tasks::ScriptTasks;
pub use system_threads::Workers;
pub use task_end::TaskEnd;
pub use task_error::TaskError;
