//! The port between a channel and a device: the commands of a device, the bytes that they move between it and a
//! program's data areas, and its faults.
//!
//! Tests: python/tests/test_channels.py, tests/cases/histories/tapes.steps.
#![tactic(auto)]

mod answer;
mod chain;
mod device;
mod faults;
mod fixed_size;
mod given;
mod image;
mod kind;
mod moves;
pub mod toy;

pub use answer::{
    Acted, COMMAND_REJECT, EQUIPMENT_CHECK, FILE_PROTECTED, INTERVENTION_REQUIRED,
    INVALID_TRACK_FORMAT, NO_RECORD_FOUND, SENSE_BYTES,
};
pub use chain::{Chain, MOST_SEGMENTS, Segment};
pub use device::{Device, MountError};
pub use faults::{Fault, FaultScript, is_script};
pub use fixed_size::FixedSize;
pub use given::Given;
pub use image::{fill_at, put_at};
pub use kind::{Flow, Kind};
