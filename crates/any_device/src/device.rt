//! The enum of the three kinds of device: each call is that of the one that the unit has.

ghost use Rattle.std.specs.Prelude.{◌≡◌};
ghost use Rattle.any_device.specs.AnySize.{any_keeps_size, any_size};
ghost use Rattle.any_device.specs.Devices.{any_device, any_device_lawful};

use ckd_disk::Disk;
use device_port::{Acted, Chain, Device, FixedSize, Flow, Kind};
use io_area::Area;
use io_images::Seek;
use line_printer::Printer;
use std::alloc::AllocError;
use tape_unit::Tape;

/// The device of a unit; every call is that of the one that it is, and so is what it means.
#[derive(Drop)]
pub enum AnyDevice {
    Disk(Disk),
    Tape(Tape),
    Printer(Printer),
}

impl Device for AnyDevice {
    ghost meaning = { any_device };

    fn kind(&self) -> Kind {
        match self {
            AnyDevice::Disk(disk) => disk.kind(),
            AnyDevice::Tape(tape) => tape.kind(),
            AnyDevice::Printer(printer) => printer.kind(),
        }
    }

    fn cylinders(&self) -> u16 {
        match self {
            AnyDevice::Disk(disk) => disk.cylinders(),
            AnyDevice::Tape(tape) => tape.cylinders(),
            AnyDevice::Printer(printer) => printer.cylinders(),
        }
    }

    fn heads(&self) -> u16 {
        match self {
            AnyDevice::Disk(disk) => disk.heads(),
            AnyDevice::Tape(tape) => tape.heads(),
            AnyDevice::Printer(printer) => printer.heads(),
        }
    }

    fn fits(&self, seek: &Seek) -> bool {
        match self {
            AnyDevice::Disk(disk) => disk.fits(seek),
            AnyDevice::Tape(tape) => tape.fits(seek),
            AnyDevice::Printer(printer) => printer.fits(seek),
        }
    }

    fn flow(&self, command: u8) -> Flow {
        match self {
            AnyDevice::Disk(disk) => disk.flow(command),
            AnyDevice::Tape(tape) => tape.flow(command),
            AnyDevice::Printer(printer) => printer.flow(command),
        }
    }

    fn prefix(&mut self, seek: &Seek, mask: u8) {
        match self {
            AnyDevice::Disk(disk) => disk.prefix(seek, mask),
            AnyDevice::Tape(tape) => tape.prefix(seek, mask),
            AnyDevice::Printer(printer) => printer.prefix(seek, mask),
        }
    }

    fn act(&mut self, command: u8, chain: &Chain<'_>, area: &mut Area) -> Acted {
        match self {
            AnyDevice::Disk(disk) => disk.act(command, chain, area),
            AnyDevice::Tape(tape) => tape.act(command, chain, area),
            AnyDevice::Printer(printer) => printer.act(command, chain, area),
        }
    }

    fn copy(&self) -> Result<Self, AllocError> {
        match self {
            AnyDevice::Disk(disk) => Ok(AnyDevice::Disk(disk.copy()?)),
            AnyDevice::Tape(tape) => Ok(AnyDevice::Tape(tape.copy()?)),
            AnyDevice::Printer(printer) => Ok(AnyDevice::Printer(printer.copy()?)),
        }
    }

    ghost lawful = { any_device_lawful };
}

impl FixedSize for AnyDevice {
    ghost size = { any_size };

    fn copy_from(&mut self, from: &Self) {
        match (self, from) {
            (AnyDevice::Disk(disk), AnyDevice::Disk(from)) => disk.copy_from(from),
            (AnyDevice::Tape(tape), AnyDevice::Tape(from)) => tape.copy_from(from),
            (AnyDevice::Printer(printer), AnyDevice::Printer(from)) => printer.copy_from(from),
            _ => unreachable!(),
        }
    }

    ghost keeps_size = { any_keeps_size };
}
