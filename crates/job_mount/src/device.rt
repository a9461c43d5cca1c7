//! The device of a unit, mounted as the lines of the unit say.

ghost use Rattle.job_mount.specs.Devices.{device_of};
ghost use Rattle.job_mount.specs.Outcomes.{MountsDevice};
ghost use Rattle.job_script.specs.Views.{unit_said};

use any_device::AnyDevice;
use ckd_disk::Disk;
use device_port::MountError;
use job_script::{InitialMedium, UnitSetup};
use line_printer::Printer;
use std::alloc::Global;
use tape_unit::Tape;

/// The device of a unit, just mounted, with the faults that it is to meet.
///
/// Errors: those of `mount` of the device.
pub fn mounted(alloc: Global, unit: &UnitSetup) -> Result<AnyDevice, MountError>
    ensures { MountsDevice (device_of (unit_said unit.now)) result }
{
    match &unit.medium {
        InitialMedium::Disk(geometry, records) => {
            match Disk::mount(alloc, *geometry, records, &unit.faults) {
                Ok(disk) => Ok(AnyDevice::Disk(disk)),
                Err(error) => Err(error),
            }
        }
        InitialMedium::Tape(bytes, items) => match Tape::mount(alloc, items, *bytes, &unit.faults) {
            Ok(tape) => Ok(AnyDevice::Tape(tape)),
            Err(error) => Err(error),
        },
        InitialMedium::Printer { lines, pages } => {
            match Printer::mount(alloc, *lines, *pages, &unit.faults) {
                Ok(printer) => Ok(AnyDevice::Printer(printer)),
                Err(error) => Err(error),
            }
        }
    }
}
