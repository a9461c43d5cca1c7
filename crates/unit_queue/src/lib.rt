//! The requests that wait for a unit, in order of arrival, in a ring that is allocated once.
//!
//! Tests: tests/library/out_of_memory.c, tests/cases/scenarios.
#![tactic(auto)]

mod queue;
mod selection;

pub use queue::WaitQueue;
pub use selection::Selection;
