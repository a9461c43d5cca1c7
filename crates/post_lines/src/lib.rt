//! The posts of requests: how each ended, the slots that keep that, and a line of each, as a run prints them. A run makes the slots
//! before it starts, from the EXCPs of its script, so that a post takes no memory.
//!
//! Tests: test_system (`jobs`), tests/cases/scripts, the group reports of tests/run.
#![tactic(auto)]

mod end;
mod post;
mod posts;
mod slot;
mod slots;
mod writing;

pub use end::End;
pub use post::{write_outcome, write_post, write_posted};
pub use posts::{shown, write_count, write_task};
pub use slot::PostSlot;
pub use slots::Slots;
pub use writing::{digits_of, put_decimal, write_bytes};
