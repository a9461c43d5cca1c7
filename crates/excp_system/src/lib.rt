//! Units under locks, the rows between them and the tasks, and the workers that serve them.
//!
//! A request goes from its task through the unit's intake row into the unit's book. Its posted value goes back from the
//! book through the task's post row. A unit's lock keeps two facts. The book's arrivals are what was taken from the
//! intake row. Each task was sent what the book gave of its posted values.
//!
//! Tests: test_system (`units`), tests/mutants/excp_system.
#![tactic(auto)]

mod balance;
mod fan;
mod gate;
mod isc;
mod item;
pub mod laws;
mod log;
mod opening;
mod pens;
mod rota;
mod rows;
mod site;
mod system;
mod task;
mod unit;
mod workers;

pub use balance::drained;
pub use fan::Fan;
pub use gate::{Gate, OpenGate, Point, Stop};
pub use isc::IscTaker;
pub use item::{Notice, Returned, Sent};
pub use log::Log;
pub use pens::Pens;
pub use rows::Rows;
pub use site::{IntakeRows, Opened, PostRows, Reach, Site};
pub use system::System;
pub use task::Task;
pub use unit::UnitState;
pub use workers::{serve, serve_channel, serve_isc};
