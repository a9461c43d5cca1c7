//! A site without locks, threads and waiting. It has units, each with its book and the requests in flight to it. For
//! each task it has a row of the posts that are on the way back to the task. Rows are bounded lists.
//!
//! A call makes one step of `unit_book`'s `World` of one unit, or leaves the worlds of all units as they were. `settle`
//! makes several (`laws::calls_make_steps`), and `renew` begins a new world. On the way back to a task from a unit are
//! the unit's posts in the task's row. So the laws of worlds hold of each unit after every list of calls
//! (`PlainSite::holds`).
//!
//! Tests: tests/mutants/unit_world.
#![tactic(auto)]

mod active;
pub mod laws;
mod post_lists;
mod site;
mod unit_side;

pub use active::{ActiveState, active_request};
pub use site::PlainSite;
