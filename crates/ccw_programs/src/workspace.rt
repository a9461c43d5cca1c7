//! What the commands of programs put together, one command after another.

use crate::fetch::{Link, Links};
use arrayvec::ArrayVec;
use device_port::{MOST_SEGMENTS, Segment};

/// The parts of the data of a command.
pub type Parts = ArrayVec<Segment, MOST_SEGMENTS>;

/// Room for the CCWs of a command and for the parts of its data. It says nothing between two commands, and is made
/// once for many programs.
#[derive(Drop)]
pub struct Workspace {
    pub(crate) links: Links,
    pub(crate) parts: Parts,
}

impl Workspace {
    /// Room that holds nothing, for the 16 CCWs of a data chain and the 528 parts of its data (chapter 15, "Data
    /// Chaining" and "Channel Indirect Data Addressing"; both limits are the profile's). Takes no memory.
    pub fn new() -> Self {
        Workspace {
            links: ArrayVec::new(),
            parts: ArrayVec::new(),
        }
    }
}
