//! Media written: a tape or a disk as an image, a printer as a text file.

ghost use Rattle.std.specs.Prelude.{◌≡◌, ◌-◌, ◌^◌, ℕ, List, min, OnOk, IfOk, IfErr, option_copied};
ghost use Rattle.std.specs.Io.KnownBytes.{Appends};
ghost use Rattle.ckd_disk.specs.Disk.{track_of};
ghost use Rattle.ckd_disk.specs.Volume.{VolumeState};
ghost use Rattle.ckd_image.specs.Image.{IsImage, file_of};
ghost use Rattle.ckd_image.specs.Saving.{image_on, volume_on, IsAsRead};
ghost use Rattle.ckd_image.specs.declared.format.Format.{Format};
ghost use Rattle.aws_tape.specs.Writing.{IsLoaded, IsReadBack, IsUntouched, saved};
ghost use Rattle.any_device.specs.declared.device.AnyDevice.TheVariants as AnyDevice;
ghost use Rattle.medium_image.specs.Saving.{FailsSaving, FailsWriting, IsNewImage, IsSameImage, KeepsItems, LoadsAgain, SavesDisk, SavesMedium, SavesTape};

use crate::image::Kept;
use crate::paper::write_paper;
use any_device::AnyDevice;
use aws_tape::Layout;
use ckd_disk::Disk;
use device_port::Device;
use std::alloc::Global;
use std::io;
use std::io::{ErrorKind, Write};
use tape_unit::Tape;

/// Why a medium is not written.
#[derive(Clone, Copy, Debug, PartialEq, Eq)]
pub enum SaveError {
    /// A disk that came from no image has this many heads and bytes a track, as no model of a disk has.
    NoModel { heads: u16, track_bytes: u32 },
    NotWritten(ErrorKind),
    NoMemory,
}

/// Writes the medium of a unit: an image of a disk or a tape, or the text that a printer has printed. `mounted` is the
/// device as it was mounted, and `now` as it is. What was not written since is as in the image that it came from, if
/// it came from one. A disk or a tape that was not written is saved as its image, byte for byte. A write to a tape changes
/// no bytes of the items before it.
///
/// What was written of a disk or a tape loads again, as the volume or the items that it has now.
///
/// Errors:
///
/// - `NoModel`: a disk that came from no image is of no model. Nothing is written.
/// - `NotWritten`: a write failed, the disk is none that an image can have, or the devices are of two kinds. A part may be
///   written.
/// - `NoMemory`. A part may be written.
pub fn save<W: Write>(
    alloc: Global,
    writer: &mut W,
    kept: Option<&Kept>,
    mounted: &AnyDevice,
    now: &AnyDevice,
) -> Result<(), SaveError>
    ensures saved { OnOk result
        (SavesMedium (W.contents writer.old) (W.contents writer.new) (option_copied kept.entry) mounted.now now.now) }
    ensures read_back { OnOk result (LoadsAgain (option_copied kept.entry) mounted.now now.now) }
    ensures same { OnOk result ((image : List ℕ) → IsSameImage (option_copied kept.entry) mounted.now now.now image
        → Appends (W.contents writer.old) (W.contents writer.new) image) }
    ensures untouched { OnOk result (KeepsItems (option_copied kept.entry) mounted.now now.now) }
    ensures fault { IfErr result (FailsSaving (W.contents writer.old) (W.contents writer.new) (option_copied kept.entry) now.now) }
{
    match (mounted, now) {
        (AnyDevice::Tape(mounted), AnyDevice::Tape(now)) => save_tape(
            alloc, writer, kept, mounted, now,
        ),
        (AnyDevice::Disk(mounted), AnyDevice::Disk(now)) => save_disk(
            alloc, writer, kept, mounted, now,
        ),
        (_, AnyDevice::Printer(printer)) => match write_paper(writer, printer) {
            Ok(()) => Ok(()),
            Err(error) => Err(not_written(error)),
        },
        // unreachable: the device of a unit stays of one kind
        _ => Err(SaveError::NotWritten(ErrorKind::Other)),
    }
}

/// Writes the image of a tape.
fn save_tape<W: Write>(
    alloc: Global,
    writer: &mut W,
    kept: Option<&Kept>,
    mounted: &Tape,
    now: &Tape,
) -> Result<(), SaveError>
    ensures saved { OnOk result (SavesTape (W.contents writer.old) (W.contents writer.new) (option_copied kept.entry) mounted.now now.now) }
    ensures read_back { OnOk result (LoadsAgain (option_copied kept.entry) (AnyDevice.Tape mounted.now) (AnyDevice.Tape now.now)) }
    ensures same { OnOk result ((image : List ℕ)
        → IsSameImage (option_copied kept.entry) (AnyDevice.Tape mounted.now) (AnyDevice.Tape now.now) image
        → Appends (W.contents writer.old) (W.contents writer.new) image) }
    ensures untouched { OnOk result (KeepsItems (option_copied kept.entry) (AnyDevice.Tape mounted.now) (AnyDevice.Tape now.now)) }
    ensures fault { IfErr result FailsWriting }
{
    match kept {
        Some(Kept::Tape(layout)) => write_tape(writer, layout, mounted, now),
        _ => write_tape(writer, &Layout::canonical(alloc), mounted, now),
    }
}

/// Writes the image of a tape with this layout.
fn write_tape<W: Write>(
    writer: &mut W,
    layout: &Layout,
    mounted: &Tape,
    now: &Tape,
) -> Result<(), SaveError>
    ensures saved { OnOk result
        (Appends (W.contents writer.old) (W.contents writer.new) (saved layout.now mounted.now.reel.items now.now.reel.items)) }
    ensures read_back { OnOk result (IsReadBack now.now.reel.items (saved layout.now mounted.now.reel.items now.now.reel.items)) }
    ensures same { OnOk result ((image : List ℕ) → IsLoaded layout.now mounted.now.reel.items image
        → now.now.reel.items ≡ mounted.now.reel.items → Appends (W.contents writer.old) (W.contents writer.new) image) }
    ensures untouched { OnOk result (IsUntouched layout.now mounted.now.reel.items now.now.reel.items
        (saved layout.now mounted.now.reel.items now.now.reel.items)) }
    ensures fault { IfErr result FailsWriting }
{
    match aws_tape::save(writer, layout, mounted, now) {
        Ok(()) => Ok(()),
        Err(error) => Err(not_written(error)),
    }
}

/// Writes the image of a disk.
fn save_disk<W: Write>(
    alloc: Global,
    writer: &mut W,
    kept: Option<&Kept>,
    mounted: &Disk,
    now: &Disk,
) -> Result<(), SaveError>
    ensures saved { OnOk result (SavesDisk (W.contents writer.old) (W.contents writer.new) (option_copied kept.entry) mounted.now now.now) }
    ensures same { OnOk result ((image : List ℕ)
        → IsSameImage (option_copied kept.entry) (AnyDevice.Disk mounted.now) (AnyDevice.Disk now.now) image
        → Appends (W.contents writer.old) (W.contents writer.new) image) }
    ensures fault { IfErr result
        (FailsSaving (W.contents writer.old) (W.contents writer.new) (option_copied kept.entry) (AnyDevice.Disk now.now)) }
{
    if let Some(Kept::Disk(kept)) = kept {
        return write_disk(alloc, writer, kept, mounted, now);
    }
    let kept = match of_model(alloc, now) {
        Ok(kept) => kept,
        Err(error) => return Err(error),
    };
    write_disk(alloc, writer, &kept, mounted, now)
}

/// Writes the image of a disk with what it has beside its records.
fn write_disk<W: Write>(
    alloc: Global,
    writer: &mut W,
    kept: &ckd_image::DiskImageDetails,
    mounted: &Disk,
    now: &Disk,
) -> Result<(), SaveError>
    ensures saved { OnOk result (Appends (W.contents writer.old) (W.contents writer.new) (image_on kept.now mounted.now now.now)) }
    ensures read_back { OnOk result (IsImage (image_on kept.now mounted.now now.now) (volume_on now.now)) }
    ensures same { OnOk result ((f : Format) (v : VolumeState) → IsAsRead f kept.now v mounted.now now.now
        → Appends (W.contents writer.old) (W.contents writer.new) (file_of f kept.now v.tracks)) }
    ensures fault { IfErr result FailsWriting }
{
    match ckd_image::save(alloc, writer, kept, mounted, now) {
        Ok(()) => Ok(()),
        Err(ckd_image::DiskSaveError::NoMemory) => Err(SaveError::NoMemory),
        Err(ckd_image::DiskSaveError::NotWritten(kind)) => Err(SaveError::NotWritten(kind)),
        Err(_) => Err(SaveError::NotWritten(ErrorKind::InvalidInput)),
    }
}

/// What a new image of a disk has.
///
/// Error: `NoModel`.
fn of_model(alloc: Global, disk: &Disk) -> Result<ckd_image::DiskImageDetails, SaveError>
    ensures new { IfOk result (IsNewImage disk.now) }
    ensures fault { IfErr result (λ e. e ≡ SaveError.NoModel disk.now.heads (min (track_of disk.now.tracks 0).size (2 ^ 32 - 1))) }
{
    let heads = disk.heads();
    let track_bytes = track_bytes(disk);
    match ckd_image::DiskImageDetails::of_model(alloc, heads, track_bytes) {
        Ok(kept) => Ok(kept),
        Err(_) => Err(SaveError::NoModel { heads, track_bytes }),
    }
}

/// How many bytes the first track of a disk has, up to 4,294,967,295.
fn track_bytes(disk: &Disk) -> u32
    ensures { result ≡ min (track_of disk.now.tracks 0).size (2 ^ 32 - 1) }
{
    // No effect at run time. The proof reads that a disk has a track.
    let _ = disk.tracks();
    u32::try_from(disk.track_bytes(0)).unwrap_or(u32::MAX)
}

/// A failed write.
fn not_written(error: io::Error) -> SaveError
    ensures { FailsWriting result }
{
    match error.kind() {
        ErrorKind::OutOfMemory => SaveError::NoMemory,
        kind => SaveError::NotWritten(kind),
    }
}
