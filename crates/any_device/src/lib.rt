//! The device of a unit: a disk, a tape or a printer, as one type that keeps the laws of a device.
//!
//! Tests: tests/cases/scripts.
#![tactic(auto)]

mod device;

pub use device::AnyDevice;
