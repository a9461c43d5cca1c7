//! A magnetic tape of blocks and tape marks: its mounting, its commands, and a reader of its medium.
//!
//! A tape is seen as the list of its items from the load point on. In the code it is one buffer of the medium's size,
//! with the items packed in order, each between its length and its length again. So no command takes memory, and the
//! tape moves over an item in either direction without a walk from the load point. A command costs time in the bytes
//! that it moves, and one that spaces over a file in the items that go by.
//!
//! Tests: tests/library/commands.c, tests/cases/scripts.
#![tactic(auto)]

mod command;
mod mount;
mod position;
mod recording;
mod reel;
mod stored;
mod tape;

pub use mount::{InitialItem, Overrun, overrun_of};
pub use recording::{Recording, RecordingError, Unmounted};
pub use reel::{LONGEST_BLOCK, LONGEST_REEL};
pub use stored::{Items, Stored};
pub use tape::Tape;
