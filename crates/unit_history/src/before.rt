//! The state before a command that decides its position on the medium, and that position.

ghost use Rattle.std.specs.Prelude.{◌≡◌, ◌↔◌, IfSome, IsTrue};
ghost use Rattle.unit_history.specs.Places.{IsWhere};

use crate::disk::{begins, place_on_disk};
use crate::place::MediumPosition;
use crate::printer::place_on_paper;
use crate::tape::place_on_tape;
use any_device::AnyDevice;
use device_port::Device;
use line_printer::PaperPosition;

/// A device whose commands have positions.
pub trait Placed: Device {
    /// Returns the device as one of the three kinds: disk, tape or printer.
    fn as_any(&self) -> &AnyDevice;
}

impl Placed for AnyDevice {
    fn as_any(&self) -> &AnyDevice {
        self
    }
}

/// A command that a device did.
#[derive(Clone, Copy)]
pub struct Done {
    pub code: u8,
    pub ended: CommandEnd,
}

/// How a command ended, as far as its position depends on that.
#[derive(Clone, Copy)]
pub enum CommandEnd {
    /// The device did what the command says. Unit exception and incorrect length are among these.
    Normal,
    /// Unit check, with these sense bytes.
    Check(u16),
    /// It met a fault of the unit.
    Fault,
}

impl Done {
    /// Whether the device did what the command says.
    pub(crate) fn is_normal(&self) -> bool
        ensures { IsTrue result ↔ (self.now.ended ≡ CommandEnd.Normal) }
    {
        matches!(self.ended, CommandEnd::Normal)
    }
}

/// What has to be known of a device from before a command.
#[derive(Clone, Copy)]
pub struct Before {
    /// How many records the searches compared since they began to count index points.
    passed: u64,
    /// Where the paper of a printer was.
    position: PaperPosition,
}

impl Before {
    /// Before the first command.
    pub fn new() -> Before {
        Before {
            passed: 0,
            position: PaperPosition { page: 1, line: 1 },
        }
    }

    /// Notes a device before its next command.
    pub fn note(&mut self, device: &AnyDevice) {
        match device {
            AnyDevice::Disk(disk) if begins(disk) => self.passed = 0,
            AnyDevice::Printer(printer) => self.position = printer.position(),
            _ => {}
        }
    }

    /// Where a command was, by the device after it. The command is the next one since the last note.
    pub fn place<'m>(&mut self, device: &'m AnyDevice, done: &Done) -> Option<MediumPosition<'m>>
        ensures { IfSome result (IsWhere device.now done.now.ended) }
    {
        match device {
            AnyDevice::Disk(disk) => place_on_disk(disk, done, &mut self.passed),
            AnyDevice::Tape(tape) if done.is_normal() => place_on_tape(tape, done.code),
            AnyDevice::Printer(printer) if done.is_normal() => {
                place_on_paper(printer, done.code, self.position)
            }
            _ => None,
        }
    }
}
