//! Channel programs of format-0 CCWs (Principles of Operation, chapter 15), a burst of commands at a time.
//!
//! A command step has four parts. It fetches the CCWs of one command (`fetch`), and puts the parts of their data
//! areas together (`areas`). Then the device acts. Then the step finds where the command ended and whether its length
//! was wrong (`ending`, `length`), and whether the program goes on (`context`). `specs/` says what all of it means:
//! Links.antt the chain of a command, Areas.antt its data areas, Step.antt the command step, a number of steps and
//! the length of a program.
//!
//! Tests: tests/cases/scripts, tests/cases/histories, tests/mutants/ccw_programs.
#![tactic(auto)]

mod areas;
mod context;
mod ending;
mod fetch;
pub mod laws;
mod length;
mod listing;
mod rule;
mod run;
mod workspace;

pub use context::{Burst, Context, State};
pub use fetch::Link;
pub use listing::{Listing, look};
pub use rule::{FailedCcw, Rule};
pub use run::{burst, bursts};
pub use workspace::Workspace;
