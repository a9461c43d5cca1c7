//! The record of a run as lines of JSON (RFC 8259), each an object: the posts, what the tasks did, and of each unit its events,
//! the commands of its channel programs, and its medium. docs/REPORT.md has the lines by example. They are written as a stream.
//! What people read of a run is made of them.
//!
//! Tests: the group reports of tests/run.
#![tactic(auto)]

mod events;
mod form;
mod lines;
mod media;
mod places;
mod posts;
mod steps;

pub use lines::{RecordDetail, write_run, write_unit};
