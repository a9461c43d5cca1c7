//! Images of disks, written track by track.

ghost use Rattle.std.specs.Prelude.{◌≡◌, ◌+◌, ◌≤◌, ◌++◌, OnOk, IfErr, length, replicate};
ghost use Rattle.std.specs.Io.KnownBytes.{Appends};
ghost use Rattle.ckd_image.specs.Image.{file_of, IsImage};
ghost use Rattle.ckd_image.specs.declared.format.Format.{Format};
ghost use Rattle.ckd_disk.specs.Volume.{VolumeState};
ghost use Rattle.ckd_image.specs.Saving.{track_bytes_with, is_as_mounted, kept_with, image_on, volume_on, IsAsRead, RefusesSaving};

use crate::fault::DiskSaveError;
use crate::format::BESIDE;
use crate::kept::DiskImageDetails;
use crate::loader::address;
use ckd_disk::{Disk, END_MARK};
use device_port::Device;
use std::alloc::Global;
use std::io::Write;

/// How many bytes of a track in an image its records never take: the home address and the end mark.
const LEAST_BESIDE: usize = 13;

/// Writes the image of a disk. A track whose records are those of the disk as mounted has its kept flag, and the kept
/// bytes after its end mark. Any other has flag 00 and zeros. So a disk that was not written on since its image was
/// read gives the same bytes.
///
/// What was written is an image, and loads to the volume that the disk is now.
///
/// Errors:
///
/// - `BadDisk`: the header is that of a disk with other heads or other tracks, or the disk has over 65,535 tracks or tracks of
///   several sizes.
/// - `NotWritten`: a write fails.
/// - `NoMemory`.
pub fn save<W: Write>(
    alloc: Global,
    writer: &mut W,
    kept: &DiskImageDetails,
    mounted: &Disk,
    disk: &Disk,
) -> Result<(), DiskSaveError>
    ensures saved { OnOk result (Appends (W.contents writer.old) (W.contents writer.new) (image_on kept.now mounted.now disk.now)) }
    ensures read_back { OnOk result (IsImage (image_on kept.now mounted.now disk.now) (volume_on disk.now)) }
    ensures refused { IfErr result (RefusesSaving kept.now mounted.now disk.now (W.contents writer.old) (W.contents writer.new)) }
    ensures same { OnOk result ((f : Format) (v : VolumeState) → IsAsRead f kept.now v mounted.now disk.now
        → Appends (W.contents writer.old) (W.contents writer.new) (file_of f kept.now v.tracks)) }
{
    let header = kept.header();
    let heads = disk.heads();
    let count = disk.tracks();
    let size = disk.track_bytes(0);
    if size > 65_535
        || !kept.is_of(heads, size as u32)
        || count > 65_535
        || count % usize::from(heads) != 0
    {
        return Err(DiskSaveError::BadDisk);
    }
    match writer.write_all(header) {
        Ok(()) => {}
        Err(error) => return Err(DiskSaveError::NotWritten(error.kind())),
    }
    let bytes = size + BESIDE as usize;
    let Ok(zeros) = vec![in alloc; 0; bytes] else {
        return Err(DiskSaveError::NoMemory);
    };
    let Ok(mut track) = Vec::with_capacity(alloc, bytes) else {
        return Err(DiskSaveError::NoMemory);
    };
    for number in 0..count {
        if disk.track_bytes(number) != size {
            return Err(DiskSaveError::BadDisk);
        }
        let records = disk.track_image(number);
        let (flag, tail) = kept_with(kept, mounted, records, number);
        let home = address(heads, number);
        put_track(&mut track, bytes, flag, &home, records, tail, &zeros)?;
        match writer.write_all(&track) {
            Ok(()) => {}
            Err(error) => return Err(DiskSaveError::NotWritten(error.kind())),
        }
    }
    Ok(())
}

/// The flag of a track, and the bytes after its end mark: those kept if its records are those of the mounted disk.
fn kept_with<'a>(
    kept: &'a DiskImageDetails,
    mounted: &Disk,
    records: &[u8],
    number: usize,
) -> (u8, &'a [u8])
    ensures flag { result.0 ≡ (kept_with kept.now mounted.now.tracks records.now number).flag }
    ensures tail { result.1.now ≡ (kept_with kept.now mounted.now.tracks records.now number).tail }
{
    if is_as_mounted(mounted, records, number) {
        return (kept.flag(number), kept.tail(number));
    }
    (0, &[])
}

/// Whether these are the records of a track of the mounted disk.
pub(crate) fn is_as_mounted(mounted: &Disk, records: &[u8], number: usize) -> bool
    ensures { result ≡ is_as_mounted mounted.now.tracks records.now number }
{
    number < mounted.tracks() && mounted.track_image(number) == records
}

/// Puts the bytes of a track into a buffer.
fn put_track(
    track: &mut Vec<u8>,
    bytes: usize,
    flag: u8,
    address: &[u8],
    records: &[u8],
    tail: &[u8],
    zeros: &[u8],
) -> Result<(), DiskSaveError>
    requires zeros { zeros.now ≡ replicate bytes 0 }
    requires room { 13 + length records.now ≤ bytes }
    ensures put { OnOk result (track.new.items ≡ track_bytes_with bytes flag address.now records.now tail.now) }
    ensures fault { IfErr result (λ e. e ≡ DiskSaveError.NoMemory) }
{
    let room = bytes - LEAST_BESIDE - records.len();
    let tail = &tail[..tail.len().min(room)];
    track.clear();
    let Ok(()) = track.push(flag) else {
        return Err(DiskSaveError::NoMemory);
    };
    append(track, address)?;
    append(track, records)?;
    append(track, &END_MARK)?;
    append(track, tail)?;
    append(track, &zeros[..room - tail.len()])
}

/// Adds bytes to a buffer.
fn append(buffer: &mut Vec<u8>, bytes: &[u8]) -> Result<(), DiskSaveError>
    ensures appended { OnOk result (buffer.new.items ≡ buffer.old.items ++ bytes.now) }
    ensures fault { IfErr result (λ e. e ≡ DiskSaveError.NoMemory) }
{
    match buffer.extend_from_slice(bytes) {
        Ok(()) => Ok(()),
        Err(_) => Err(DiskSaveError::NoMemory),
    }
}
