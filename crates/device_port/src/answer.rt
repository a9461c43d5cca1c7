//! What a device answers to a command, and its sense bytes.

ghost use Rattle.std.specs.Prelude.{◌≡◌};

use io_images::{SubStatus, UnitStatus};

/// The sense of a command that ended without unit check.
const NO_SENSE: u16 = 0;

/// Sense byte 0: the command, or its position in the program, is not one that the device takes.
pub const COMMAND_REJECT: u16 = 0x8000;
/// Sense byte 0: the operator has to do something first, as to put paper in.
pub const INTERVENTION_REQUIRED: u16 = 0x4000;
/// Sense byte 0: the device or its control unit is out of order; on a tape, a block past the medium's end.
pub const EQUIPMENT_CHECK: u16 = 0x1000;
/// Sense byte 1 of a disk: a record does not fit its track.
pub const INVALID_TRACK_FORMAT: u16 = 0x0040;
/// Sense byte 1 of a disk: no such record on the track.
pub const NO_RECORD_FOUND: u16 = 0x0008;
/// Sense byte 1 of a disk: the file mask does not allow the seek.
pub const FILE_PROTECTED: u16 = 0x0004;

/// The bytes that SENSE gives on every device: zeros, since the sense comes with the status.
pub const SENSE_BYTES: [u8; 2] = [0, 0];

/// What a device answers to a command: unit status and subchannel status, two sense bytes, and the number
/// of bytes that it wants to move.
#[derive(Clone, Copy, PartialEq, Eq, Debug)]
pub struct Acted {
    /// Unit status.
    pub unit: UnitStatus,
    /// Subchannel status.
    pub sub: SubStatus,
    /// Sense bytes 0 and 1; 0 without unit check.
    pub sense: u16,
    /// How many bytes the device wants to move.
    pub want: u32,
}

impl Acted {
    ghost use Rattle.device_port.specs.Answers.{normal_end, status_modifier, unit_check, unit_exception, ended, no_operation_ended, sense_ended, rejected};

    fn ended(unit: UnitStatus, sense: u16, want: u32) -> Self
        ensures { result ≡ ended unit.0 sense want }
    {
        Acted {
            unit,
            sub: SubStatus::new(0),
            sense,
            want,
        }
    }

    /// Channel end and device end.
    pub fn normal_end(want: u32) -> Self
        ensures { result ≡ normal_end want }
    {
        Self::ended(UnitStatus::NORMAL_END, NO_SENSE, want)
    }

    /// Channel end, device end and status modifier: a search has found what it looked for.
    pub fn status_modifier(want: u32) -> Self
        ensures { result ≡ status_modifier want }
    {
        Self::ended(UnitStatus::MODIFIER_END, NO_SENSE, want)
    }

    /// Channel end, device end and unit check, with this sense; no byte is wanted.
    pub fn unit_check(sense: u16) -> Self
        ensures { result ≡ unit_check sense }
    {
        Self::ended(UnitStatus::CHECK_END, sense, 0)
    }

    /// Channel end, device end and unit exception.
    pub fn unit_exception(want: u32) -> Self
        ensures { result ≡ unit_exception want }
    {
        Self::ended(UnitStatus::EXCEPTION_END, NO_SENSE, want)
    }

    /// The end of NO-OPERATION, on every device.
    pub fn no_operation() -> Self
        ensures { result ≡ no_operation_ended }
    {
        Self::normal_end(0)
    }

    /// The end of SENSE, on every device: two bytes are wanted.
    pub fn sense() -> Self
        ensures { result ≡ sense_ended }
    {
        Self::normal_end(SENSE_BYTES.len() as u32)
    }

    /// The end of a command that a device does not have, or does not take at its position.
    pub fn rejected() -> Self
        ensures { result ≡ rejected }
    {
        Self::unit_check(COMMAND_REJECT)
    }
}
