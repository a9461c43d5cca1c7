//! An image of a medium, loaded from a reader.

ghost use Rattle.std.specs.Prelude.{◌≡◌, ◌↔◌, IsTrue, bytes_eq, codes};
ghost use Rattle.medium_image.specs.Images.{geometry_of, image_size};
ghost use Rattle.medium_image.specs.Loading.{LoadsImage, RunsOut};
ghost use Rattle.medium_image.specs.Saving.{Forgets};

use any_device::AnyDevice;
use aws_tape::{AwsError, AwsFault, Layout};
use ckd_disk::Geometry;
use ckd_image::{CkdError, CkdFault};
use image_source::fill;
use std::alloc::Global;
use std::io::Read;
use tape_unit::LONGEST_REEL;
use thiserror::Error;

/// What an image of a disk of any format begins with.
const DISK: &[u8] = b"CKD_";

/// An image of a disk or a tape, and what its file has beside the medium.
#[derive(Drop)]
pub enum Image {
    Disk(ckd_image::DiskImage),
    Tape(aws_tape::TapeImage),
}

/// What the file of an image has beside the medium. With it, an image is saved as it was.
#[derive(Drop)]
pub enum Kept {
    Disk(ckd_image::DiskImageDetails),
    Tape(Layout),
}

/// The size of a medium.
#[derive(Clone, Copy)]
pub enum Size {
    Disk(Geometry),
    /// The bytes of a tape.
    Tape(u64),
}

/// Why an image is not loaded.
#[derive(Clone, Copy, Debug, Error)]
pub enum ImageError {
    #[error("{0}")]
    Disk(CkdError),
    #[error("{0}")]
    Tape(AwsError),
    #[error("the image cannot be read")]
    Unreadable,
}

impl ImageError {
    /// Whether memory ran out.
    pub fn is_no_memory(&self) -> bool
        ensures { IsTrue result ↔ RunsOut self.now }
    {
        match self {
            ImageError::Disk(error) => error.fault == CkdFault::NoMemory,
            ImageError::Tape(error) => error.fault == AwsFault::NoMemory,
            ImageError::Unreadable => false,
        }
    }
}

impl Kept {
    /// Forgets what it has of the tracks and the blocks that were written since the medium was mounted. So the image of the medium
    /// stays the same if `now` is the mounted device from here on.
    pub fn forget_written(&mut self, mounted: &AnyDevice, now: &AnyDevice)
        ensures { Forgets self.old mounted.now now.now self.new }
    {
        match (self, mounted, now) {
            (Kept::Disk(kept), AnyDevice::Disk(mounted), AnyDevice::Disk(now)) =>
                kept.forget_written(mounted, now),
            (Kept::Tape(layout), AnyDevice::Tape(mounted), AnyDevice::Tape(now)) =>
                layout.forget_written(mounted, now),
            // unreachable: the device of a unit stays of one kind
            _ => {}
        }
    }
}

impl Image {
    /// Reads an image to its end. If it begins with `CKD_`, it is one of a disk, and else one of a tape.
    ///
    /// Errors: those of `load` of the format. What was read is dropped.
    pub fn load<R: Read>(alloc: Global, reader: &mut R) -> Result<Self, ImageError>
        ensures { LoadsImage (R.remaining reader.old) result }
    {
        let mut first = [0; 4];
        let Ok(count) = fill(reader, &mut first) else {
            return Err(ImageError::Unreadable);
        };
        let read = &first[..count];
        let mut whole = read.chain(reader);
        if is_disk(read) {
            match ckd_image::load(alloc, &mut whole) {
                Ok(image) => Ok(Image::Disk(image)),
                Err(error) => Err(ImageError::Disk(error)),
            }
        } else {
            match aws_tape::load(alloc, &mut whole, LONGEST_REEL) {
                Ok(image) => Ok(Image::Tape(image)),
                Err(error) => Err(ImageError::Tape(error)),
            }
        }
    }

    /// The size of its medium. A tape has the bytes that its items take.
    pub fn size(&self) -> Size
        ensures { result ≡ image_size self.now }
    {
        match self {
            Image::Disk(image) => Size::Disk(geometry(image)),
            Image::Tape(image) => Size::Tape(image.tape.used()),
        }
    }
}

/// Whether the first four bytes of an image are those of an image of a disk.
fn is_disk(first: &[u8]) -> bool
    ensures { result ≡ bytes_eq first.now (codes "CKD_") }
{
    first == DISK
}

/// The geometry of the disk of an image.
pub fn geometry(image: &ckd_image::DiskImage) -> Geometry
    ensures { result ≡ geometry_of image.now.volume }
{
    let volume = &image.volume;
    let heads = u64::from(volume.heads());
    Geometry {
        cylinders: volume.tracks() as u64 / heads,
        heads,
        track_bytes: volume.track_bytes() as u64,
    }
}
