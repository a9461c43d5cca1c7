//! An image of a medium, mounted as the device of a unit.

ghost use Rattle.std.specs.Prelude.{◌≡◌, ◌≢◌};
ghost use Rattle.job_media.specs.Mounting.{AnswersMounting, for_disk, for_tape, as_job_error, mounted_from};

use any_device::AnyDevice;
use device_port::MountError;
use job_script::{FaultName, InitialMedium, JobError, UnitSetup};
use medium_image::{Image, Kept, geometry};
use std::alloc::Global;

/// Why the image of a unit is not mounted: the lines of the unit, the first of which has this number, do not fit it; or out of
/// memory.
#[derive(Clone, Copy)]
pub enum MediaError {
    Unit(usize),
    NoMemory,
}

impl From<MediaError> for JobError {
    ghost from_gives = { λ error e. e ≡ as_job_error error };

    fn from(error: MediaError) -> Self {
        match error {
            MediaError::Unit(line) => JobError::Line {
                line,
                name: FaultName::Medium,
            },
            MediaError::NoMemory => JobError::NoMemory,
        }
    }
}

/// The device of a unit, with the medium of this image, and what saving needs beside it.
///
/// Errors: a line says what is on the medium; the unit is of another kind or size than the image; its faults are no fault script;
/// out of memory. A tape may have more bytes than the image.
pub(crate) fn mounted(
    alloc: Global,
    image: Image,
    unit: &UnitSetup,
) -> Result<(AnyDevice, Kept), MediaError>
    ensures { AnswersMounting (mounted_from image unit.now) result }
{
    match image {
        Image::Disk(image) => mounted_disk(alloc, image, unit),
        Image::Tape(image) => mounted_tape(alloc, image, unit),
    }
}

/// Why a medium of a unit is not mounted, whose size is right.
fn not_mounted(unit: &UnitSetup, reason: MountError) -> MediaError
    ensures memory { reason ≡ MountError.NoMemory → result ≡ MediaError.NoMemory }
    ensures faults { reason ≢ MountError.NoMemory → result ≡ MediaError.Unit unit.now.line }
{
    match reason {
        MountError::NoMemory => MediaError::NoMemory,
        _ => MediaError::Unit(unit.line),
    }
}

fn mounted_disk(
    alloc: Global,
    image: ckd_image::DiskImage,
    unit: &UnitSetup,
) -> Result<(AnyDevice, Kept), MediaError>
    ensures { AnswersMounting (for_disk image unit.now.medium unit.now) result }
{
    let InitialMedium::Disk(declared, records) = &unit.medium else {
        return Err(MediaError::Unit(unit.line));
    };
    if !records.is_empty() || *declared != geometry(&image) {
        return Err(MediaError::Unit(unit.line));
    }
    let ckd_image::DiskImage { volume, kept } = image;
    match volume.mount(alloc, &unit.faults) {
        Ok(disk) => Ok((AnyDevice::Disk(disk), Kept::Disk(kept))),
        Err(refused) => Err(not_mounted(unit, refused.reason)),
    }
}

fn mounted_tape(
    alloc: Global,
    image: aws_tape::TapeImage,
    unit: &UnitSetup,
) -> Result<(AnyDevice, Kept), MediaError>
    ensures { AnswersMounting (for_tape image unit.now.medium unit.now) result }
{
    let InitialMedium::Tape(bytes, items) = &unit.medium else {
        return Err(MediaError::Unit(unit.line));
    };
    if !items.is_empty() {
        return Err(MediaError::Unit(unit.line));
    }
    let aws_tape::TapeImage { mut tape, layout } = image;
    if tape.resize(*bytes).is_err() {
        return Err(MediaError::Unit(unit.line));
    }
    match tape.mount(alloc, &unit.faults) {
        Ok(tape) => Ok((AnyDevice::Tape(tape), Kept::Tape(layout))),
        Err(refused) => Err(not_mounted(unit, refused.reason)),
    }
}
