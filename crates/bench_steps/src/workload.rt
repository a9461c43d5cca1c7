//! The channel programs that are measured, each from X'1000' on.

use crate::channel::{Channel, disk};
use std::alloc::{AllocError, Global};

/// No-operation, transfer back: it goes on to the fetch limit.
const NO_OPERATION: [u8; 16] = [0x03, 0, 0, 0, 0x60, 0, 0, 1, 0x08, 0, 0x10, 0, 0, 0, 0, 0];

/// Search for the last of 200 records, transfer back, no-operation, and the search argument.
const SEARCH: [u8; 32] = [
    0x31, 0, 0x10, 0x18, 0x40, 0, 0, 5, 0x08, 0, 0x10, 0, 0, 0, 0, 0, 0x03, 0, 0, 0, 0x20, 0, 0, 1,
    0, 0, 0, 0, 200, 0, 0, 0,
];

/// Sense into two data areas of one byte, transfer back, and the areas.
const DATA_CHAIN: [u8; 32] = [
    0x04, 0, 0x10, 0x18, 0x80, 0, 0, 1, 0, 0, 0x10, 0x19, 0x40, 0, 0, 1, 0x08, 0, 0x10, 0, 0, 0, 0,
    0, 0, 0, 0, 0, 0, 0, 0, 0,
];

/// Sense into the two bytes about X'1800' that a list of two words names, transfer back, and the list.
const INDIRECT_LIST: [u8; 24] = [
    0x04, 0, 0x10, 0x10, 0x44, 0, 0, 2, 0x08, 0, 0x10, 0, 0, 0, 0, 0, 0, 0, 0x17, 0xFF, 0, 0, 0x18,
    0,
];

/// Read data of 8,000 bytes, transfer back.
const LARGE_READ: [u8; 16] = [
    0x06, 0, 0x10, 0x10, 0x40, 0, 0x1F, 0x40, 0x08, 0, 0x10, 0, 0, 0, 0, 0,
];

/// Search, transfer back, read data, the search argument and a buffer.
const SEARCH_AND_READ: [u8; 40] = [
    0x31, 0, 0x10, 0x18, 0x40, 0, 0, 5, 0x08, 0, 0x10, 0, 0, 0, 0, 0, 0x06, 0, 0x10, 0x20, 0, 0, 0,
    4, 0, 0, 0, 0, 1, 0, 0, 0, 0, 0, 0, 0, 0, 0, 0, 0,
];

/// One no-operation.
const START: [u8; 8] = [0x03, 0, 0, 0, 0x20, 0, 0, 1];

/// What is measured on a subchannel.
#[derive(Clone, Copy, PartialEq, Eq, Debug)]
pub enum Workload {
    NoOperation,
    Search,
    DataChain,
    IndirectList,
    LargeRead,
    SearchAndRead,
    Start,
}

impl Workload {
    /// Each of them.
    pub const ALL: [Workload; 7] = [
        Workload::NoOperation,
        Workload::Search,
        Workload::DataChain,
        Workload::IndirectList,
        Workload::LargeRead,
        Workload::SearchAndRead,
        Workload::Start,
    ];

    /// What is counted.
    pub fn name(self) -> &'static str {
        match self {
            Workload::NoOperation => "no-operation steps",
            Workload::Search => "search steps",
            Workload::DataChain => "data chain steps",
            Workload::IndirectList => "indirect list steps",
            Workload::LargeRead => "large read steps",
            Workload::SearchAndRead => "search and read attempts",
            Workload::Start => "starts",
        }
    }

    /// Whether command steps are counted, and not attempts.
    pub fn counts_steps(self) -> bool {
        !matches!(&self, Workload::SearchAndRead | Workload::Start)
    }

    /// A subchannel on which its program is to run.
    pub fn channel(self, alloc: Global) -> Result<Channel, AllocError> {
        let disk = match self {
            Workload::Search => disk(alloc, 200, 4)?,
            Workload::LargeRead => disk(alloc, 1, 8000)?,
            _ => disk(alloc, 1, 4)?,
        };
        match self {
            Workload::NoOperation => Channel::new(alloc, disk, &NO_OPERATION, 0),
            Workload::Search => Channel::new(alloc, disk, &SEARCH, 0),
            Workload::DataChain => Channel::new(alloc, disk, &DATA_CHAIN, 0),
            Workload::IndirectList => Channel::new(alloc, disk, &INDIRECT_LIST, 0x900),
            Workload::LargeRead => Channel::new(alloc, disk, &LARGE_READ, 8192),
            Workload::SearchAndRead => Channel::new(alloc, disk, &SEARCH_AND_READ, 0),
            Workload::Start => Channel::new(alloc, disk, &START, 0),
        }
    }
}
