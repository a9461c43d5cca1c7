//! A disk of count-key-data records: its mounting, its commands, and a reader of its medium.
//!
//! In contracts a track is the list of its records, R0 first. In the code it is one image of the track's size, with the
//! records packed in order, so no command takes memory. The position of a record is kept with its offset, so a command
//! costs time in the bytes that it moves.
//!
//! A volume is a disk that is recorded track by track, as from an image.
//!
//! Tests: tests/library/commands.c, python/tests/test_channels.py, tests/cases/scripts.
#![tactic(auto)]

mod access;
pub mod command;
mod commands;
mod disk;
mod mount;
mod track;
mod volume;
mod walk;

pub use access::{Access, Armed, Orientation};
pub use disk::Disk;
pub use mount::{
    Geometry, GeometryRefusal, InitialRecord, Overfull, RecordRefusal, first_overfull,
};
pub use track::{Records, Spot, StoredRecord};
pub use volume::{END_MARK, UnmountedVolume, Volume, VolumeError};
