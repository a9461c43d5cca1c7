//! The end of a run. All that is under way is brought to its end, the ends of each row are joined, and each task gets
//! an account of all that it sent.
//!
//! [`finish`] holds for every run, whatever its threads did. Each unit received what its tasks sent, once and in
//! order, and has posted each request of it just once. What a task had collected, and what the [`Report`] lists for
//! it, is all that was posted for it.
//!
//! Tests: test_system (`endings`), tests/mutants/post_ledger.
#![tactic(auto)]

mod audit;
mod cause;
mod drain;
mod join;
mod parting;
mod places;
mod posts;
mod report;
mod unfinished;

pub use cause::Cause;
pub use posts::Posts;
pub use report::Report;
pub use unfinished::{Unfinished, Units, UnitsLeft, finish};
