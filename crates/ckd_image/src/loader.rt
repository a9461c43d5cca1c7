//! Images of disks, read track by track.

ghost use Rattle.std.specs.Prelude.{◌≡◌, ℕ, ◌+◌, ◌^◌, ◌<◌, ◌≤◌, List, Some, Ok, IfOk, IfErr, OnOk, [], ◌++◌, length, replicate};
ghost use Rattle.device_port.specs.Moves.{padded};
ghost use Rattle.ckd_disk.specs.Volume.{VolumeState};
ghost use Rattle.ckd_image.specs.Header.{format_of};
ghost use Rattle.ckd_image.specs.Image.{home_of, tracks_file, kept_at, IsImage};
ghost use Rattle.ckd_image.specs.Loading.{IsFault, Loaded, FailsImage, LoadsVolume, FailsTrack, TakesTrack, EndsImage, track_fault, IsLoader, ReadsTracks, FailsAfter};

use crate::fault::{CkdError, CkdFault};
use crate::format::{BESIDE, Format, HEADER};
use crate::kept::{DiskImage, DiskImageDetails, KeptTrack};
use ckd_disk::{Volume, VolumeError};
use image_source::fill;
use std::alloc::{AllocError, Global};
use std::io::Read;

/// Where the records of a track begin, after its home address.
const HOME: usize = 5;

/// The most tracks that a volume has.
const MOST_TRACKS: usize = 65_535;

/// How many bytes the end mark has.
const END: usize = 8;

/// The tracks of an image so far.
#[derive(Drop)]
struct Loader {
    alloc: Global,
    format: Format,
    volume: Volume,
    tracks: Vec<KeptTrack>,
    zeros: Vec<u8>,
}

/// Reads an image of a disk to its end.
///
/// An image that breaks no rule loads to its volume, unless a read fails or memory runs out.
///
/// Errors: the first rule that the image breaks, with its offset; `Unreadable` if a read fails; or `NoMemory`.
pub fn load<R: Read>(alloc: Global, reader: &mut R) -> Result<DiskImage, CkdError>
    ensures loaded { IfOk result (Loaded (R.remaining reader.old) (R.remaining reader.new)) }
    ensures fault { IfErr result (λ e. IsFault e.fault → FailsImage (R.remaining reader.old) (R.remaining reader.new) e) }
    ensures reads_back { (bytes : List ℕ) (v : VolumeState) → R.remaining reader.old ≡ Some bytes → IsImage bytes v → LoadsVolume v result }
{
    let mut header = [0; HEADER];
    let Ok(count) = fill(reader, &mut header) else {
        return Err(CkdError {
            fault: CkdFault::Unreadable,
            offset: 0,
        });
    };
    if count < HEADER {
        return Err(CkdError {
            fault: CkdFault::HeaderCutShort,
            offset: count,
        });
    }
    let format = match Format::of(&header) {
        Ok(format) => format,
        Err(error) => return Err(error),
    };
    let loader = match Loader::new(alloc, format) {
        Ok(loader) => loader,
        Err(error) => return Err(error),
    };
    loader.read(reader, header)
}

impl Loader {
    /// A loader of an image of this format, with no track yet.
    fn new(alloc: Global, format: Format) -> Result<Self, CkdError>
        requires some { 1 ≤ format.heads }
        requires least { 30 ≤ format.bytes }
        requires most { format.bytes ≤ 65_549 }
        ensures begun { IfOk result (λ l. IsLoader format l.volume l.tracks.items l.zeros.items) }
        ensures empty { IfOk result (λ l. l.volume.tracks ≡ []) }
        ensures format { IfOk result (λ l. l.format ≡ format) }
        ensures fault { IfErr result (λ e. e.fault ≡ CkdFault.NoMemory) }
    {
        let out_of_memory = CkdError {
            fault: CkdFault::NoMemory,
            offset: HEADER,
        };
        let bytes = format.bytes;
        let Ok(volume) = Volume::new(alloc, u64::from(format.heads), u64::from(bytes - BESIDE))
        else {
            return Err(out_of_memory);
        };
        let Ok(zeros) = vec![in alloc; 0; bytes as usize] else {
            return Err(out_of_memory);
        };
        Ok(Loader {
            alloc,
            format,
            volume,
            tracks: Vec::new(alloc),
            zeros,
        })
    }

    /// Reads the tracks that follow the header, to the end of the reader.
    fn read<R: Read>(mut self, reader: &mut R, header: [u8; 512]) -> Result<DiskImage, CkdError>
        requires loader { IsLoader self.format self.volume self.tracks.items self.zeros.items }
        requires empty { self.volume.tracks ≡ [] }
        requires header { format_of header ≡ Ok self.format }
        requires long { length header ≡ 512 }
        ensures loaded { IfOk result (ReadsTracks header (R.remaining reader.old) (R.remaining reader.new)) }
        ensures fault { IfErr result (λ e. IsFault e.fault → FailsAfter header (R.remaining reader.old) (R.remaining reader.new) e) }
    {
        let bytes = self.format.bytes as usize;
        let mut offset = HEADER;
        let Ok(mut buffer) = vec![in self.alloc; 0; bytes] else {
            return Err(CkdError {
                fault: CkdFault::NoMemory,
                offset,
            });
        };
        'tracks: loop {
            let Ok(count) = fill(reader, &mut buffer) else {
                return Err(CkdError {
                    fault: CkdFault::Unreadable,
                    offset,
                });
            };
            if count < bytes {
                return self.end(header, offset, count);
            }
            match self.take(&buffer) {
                Ok(()) => offset += bytes,
                Err(error) => {
                    return Err(CkdError {
                        fault: error.fault,
                        offset: offset + error.offset,
                    });
                }
            }
        }
    }

    /// The image, if the reader ended after whole cylinders: `count` bytes follow the tracks so far, which end at
    /// `offset`.
    ///
    /// Error: `CutShort`.
    fn end(self, header: [u8; 512], offset: usize, count: usize) -> Result<DiskImage, CkdError>
        requires some { 1 ≤ self.volume.heads }
        requires small { offset + count < 2 ^ 64 }
        ensures { EndsImage self.volume (record { header = header; tracks = self.tracks.items }) (offset + count) count result }
    {
        let tracks = self.volume.tracks();
        let heads = usize::from(self.volume.heads());
        if count > 0 || tracks == 0 || tracks % heads != 0 {
            return Err(CkdError {
                fault: CkdFault::CutShort,
                offset: offset + count,
            });
        }
        let Loader {
            alloc: _,
            format: _,
            volume,
            tracks,
            zeros: _,
        } = self;
        Ok(DiskImage {
            volume,
            kept: DiskImageDetails::new(header, tracks),
        })
    }

    /// Reads the next track.
    ///
    /// Errors: the first rule that the track breaks, with its offset in the track; or `NoMemory`.
    fn take(&mut self, track: &[u8]) -> Result<(), CkdError>
        requires loader { IsLoader self.old.format self.old.volume self.old.tracks.items self.old.zeros.items }
        requires long { length track.now ≡ self.old.format.bytes }
        ensures taken { OnOk result (TakesTrack self.old.format track.now self.old.volume self.new.volume self.old.tracks.items self.new.tracks.items) }
        ensures format { self.new.format ≡ self.old.format }
        ensures zeros { self.new.zeros ≡ self.old.zeros }
        ensures fault { IfErr result (λ e. FailsTrack self.old.format self.old.volume track.now e.fault e.offset) }
        ensures small { IfErr result (λ e. e.offset < 2 ^ 32) }
    {
        let number = self.volume.tracks();
        if number >= MOST_TRACKS {
            return Err(fails(CkdFault::TooManyTracks));
        }
        let address = address(self.format.heads, number);
        if &track[1..HOME] != address.as_slice() {
            return Err(fails(CkdFault::BadHomeAddress));
        }
        let body = &track[HOME..];
        let used = match self.volume.record_track(body) {
            Ok(used) => used,
            Err(error) => return Err(track_fault(error)),
        };
        let tail = &body[used + END..];
        let Ok(tail) = kept_tail(self.alloc, tail, &self.zeros) else {
            return Err(fails(CkdFault::NoMemory));
        };
        let Ok(()) = self.tracks.push(KeptTrack::new(track[0], tail)) else {
            return Err(fails(CkdFault::NoMemory));
        };
        Ok(())
    }
}

/// A fault of the home address of a track, or out of memory.
fn fails(fault: CkdFault) -> CkdError
    ensures { result ≡ record { fault = fault; offset = 0 } }
{
    CkdError { fault, offset: 0 }
}

/// The fault of a track whose records are refused.
fn track_fault(error: VolumeError) -> CkdError
    ensures { result ≡ track_fault error }
{
    let (fault, at) = match error {
        VolumeError::BadHeads => (CkdFault::BadHeads, 0),
        VolumeError::BadTrackBytes => (CkdFault::BadTrackBytes, 0),
        VolumeError::TooManyTracks => (CkdFault::TooManyTracks, 0),
        VolumeError::NoRecord => (CkdFault::NoRecord, HOME),
        VolumeError::NoEndMark { at } => (CkdFault::NoEndMark, HOME + usize::from(at)),
        VolumeError::PastTrack { at } => (CkdFault::PastTrack, HOME + usize::from(at)),
        VolumeError::NoMemory => (CkdFault::NoMemory, 0),
    };
    CkdError { fault, offset: at }
}

/// CC and HH of a track, by its number.
pub fn address(heads: u16, number: usize) -> [u8; 4]
    requires some { 1 ≤ heads }
    requires few { number ≤ 65_535 }
    ensures { result ≡ home_of heads number }
{
    let heads = usize::from(heads);
    let [cylinder_high, cylinder_low] = ((number / heads) as u16).to_be_bytes();
    let [head_high, head_low] = ((number % heads) as u16).to_be_bytes();
    [cylinder_high, cylinder_low, head_high, head_low]
}

/// The bytes after the end mark of a track, or none if they are all zero.
fn kept_tail(alloc: Global, tail: &[u8], zeros: &[u8]) -> Result<Vec<u8>, AllocError>
    requires zeros { zeros.now ≡ replicate (length zeros.now) 0 }
    requires few { length tail.now ≤ length zeros.now }
    ensures { IfOk result (λ v. padded (length tail.now) v.items ≡ tail.now) }
{
    if tail == &zeros[..tail.len()] {
        return Ok(Vec::new(alloc));
    }
    tail.to_vec(alloc)
}
