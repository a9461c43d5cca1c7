//! The threads of a system: each task on a thread of its own, beside channel workers and interruption handlers.
//!
//! What each task does is a [`TaskProgram`]. It issues requests by its [`Client`], and sleeps in
//! [`Client::next_post`] until a worker has sent one back. [`run_program`] runs the tasks of a system beside
//! [`Workers`], and brings the run to its end.
//!
//! Its parts are public too, for a run by a gate that does more than to wake the tasks. [`runners`] makes the clients
//! of a system, [`Alarm::of`] what wakes them, and [`Crew`] the workers. [`run_beside`] lets the tasks run beside
//! these, and [`parted`] gives them back, in the room that [`PartsRoom`] had for them before.
//!
//! Tests: test_system (`jobs`), the groups random and costs of tests/run.
#![tactic(auto)]

mod alarm;
mod client;
mod crew;
mod refusals;
mod run;
mod run_error;
mod runner;
mod task_program;

pub use alarm::Alarm;
pub use client::{Client, IssueError};
pub use crew::{ChannelWorker, Crew, Workers};
pub use refusals::LASTING_TURNS;
pub use run::{run_beside, run_program};
pub use run_error::RunError;
pub use runner::{NoThread, PartsRoom, Runner, parted, runners};
pub use task_program::TaskProgram;
