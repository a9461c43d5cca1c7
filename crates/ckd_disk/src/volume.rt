//! A disk that is recorded track by track.

ghost use Rattle.std.specs.Prelude.{◌≡◌, ◌≤◌, length, IfOk, IfErr, OnErr};
ghost use Rattle.ckd_disk.specs.Volume.{Stops};
ghost use Rattle.ckd_disk.specs.VolumeFacts.{IsExtent};

use crate::disk::Disk;
use crate::track::{COUNT_AREA, Track, size_of_first};
use device_port::{Fault, FaultScript, MountError, is_script};
use std::alloc::Global;
use std::marker::Model;
use thiserror::Error;

/// The most tracks that a disk has.
const MOST_TRACKS: usize = 65_535;

/// What ends the records of a track: a count area of eight bytes FF, which no record that fits a track has.
pub const END_MARK: [u8; 8] = [0xFF; 8];

/// Why a volume or a track is not recorded.
#[derive(Clone, Copy, Debug, Drop, Error, PartialEq, Eq)]
pub enum VolumeError {
    /// The volume is to have no track a cylinder, or over 65,535.
    #[error("a cylinder has 1 to 65,535 tracks")]
    BadHeads,
    /// A track is to have under 16 bytes, or over 65,535.
    #[error("a track has 16 to 65,535 bytes")]
    BadTrackBytes,
    /// The volume has 65,535 tracks.
    #[error("a disk has at most 65,535 tracks")]
    TooManyTracks,
    /// The track has no record.
    #[error("a track has at least one record, R0")]
    NoRecord,
    /// Neither the end mark nor room for a count area follows the records.
    #[error("the records do not end in eight bytes FF: byte {at} of the track")]
    NoEndMark { at: u16 },
    /// A record goes past the end of its track.
    #[error("a record goes past the end of its track: byte {at} of the track")]
    PastTrack { at: u16 },
    /// Out of memory.
    #[error("out of memory")]
    NoMemory,
}

/// A volume that is not mounted, and why.
#[derive(Debug, Drop)]
pub struct UnmountedVolume {
    pub volume: Volume,
    pub reason: MountError,
}

/// The records of a track: how many they are, and how many bytes they take.
#[derive(Clone, Copy, Debug)]
struct TrackUse {
    count: usize,
    used: usize,
}

/// A disk that is recorded track by track, as from an image of a disk, and mounted then. It has up to 65,535 tracks of
/// up to 65,535 bytes, so it holds more than `Disk::mount` does. Its memory grows with its tracks.
#[derive(Debug, Drop)]
pub struct Volume {
    heads: u16,
    track_bytes: usize,
    tracks: Vec<Track>,
}

impl Model for Volume {
    ghost use Rattle.ckd_disk.specs.Volume.{VolumeState, IsVolume};

    ghost Value = { VolumeState };

    ghost view = { λ v. record { heads = v.heads; track_bytes = v.track_bytes; tracks = v.tracks.items } };

    ghost invariant = { λ v. IsVolume (record { heads = v.heads; track_bytes = v.track_bytes; tracks = v.tracks.items }) };
}

impl Volume {
    ghost use Rattle.ckd_disk.specs.Volume.{BeginsVolume, RecordsTrack};
    ghost use Rattle.ckd_disk.specs.VolumeFacts.{MountsVolume};

    /// A volume with no track yet: how many tracks a cylinder has, and how many bytes a track.
    ///
    /// Errors, in this order: `BadHeads`, `BadTrackBytes`.
    pub fn new(alloc: Global, heads: u64, track_bytes: u64) -> Result<Self, VolumeError>
        ensures { BeginsVolume heads track_bytes result }
    {
        if heads < 1 || heads > 65_535 {
            return Err(VolumeError::BadHeads);
        }
        if track_bytes < 16 || track_bytes > 65_535 {
            return Err(VolumeError::BadTrackBytes);
        }
        Ok(Volume {
            heads: heads as u16,
            track_bytes: track_bytes as usize,
            tracks: Vec::new(alloc),
        })
    }

    /// How many tracks are recorded.
    pub fn tracks(&self) -> usize
        ensures tracks { result ≡ length self.now.tracks }
        ensures few { result ≤ 65_535 }
    {
        self.tracks.len()
    }

    /// How many tracks a cylinder has.
    pub fn heads(&self) -> u16
        ensures heads { result ≡ self.now.heads }
        ensures some { 1 ≤ result }
    {
        self.heads
    }

    /// How many bytes a track has.
    pub fn track_bytes(&self) -> usize
        ensures bytes { result ≡ self.now.track_bytes }
        ensures least { 16 ≤ result }
        ensures most { result ≤ 65_535 }
    {
        self.track_bytes
    }

    /// Records the next track: the records that `bytes` begin with, packed one after the other, R0 first, up to the end
    /// mark. Returns how many bytes the records take. What follows the end mark means nothing.
    ///
    /// Errors, in this order; the volume stays as it is then:
    ///
    /// - `TooManyTracks`.
    /// - `NoEndMark`, `PastTrack`: with the offset in `bytes` where the records before it end.
    /// - `NoRecord`.
    /// - `NoMemory`.
    pub fn record_track(&mut self, bytes: &[u8]) -> Result<usize, VolumeError>
        ensures answer { RecordsTrack self.old bytes.now self.new result }
        ensures unchanged { OnErr result (self.new ≡ self.old) }
    {
        if self.tracks.len() >= MOST_TRACKS {
            return Err(VolumeError::TooManyTracks);
        }
        let extent = match extent_of(bytes, self.track_bytes) {
            Ok(extent) => extent,
            Err(error) => return Err(error),
        };
        let alloc = *self.tracks.allocator();
        let records = &bytes[..extent.used];
        let Ok(track) = Track::recorded(alloc, self.track_bytes, records, extent.count) else {
            return Err(VolumeError::NoMemory);
        };
        let Ok(()) = self.tracks.push(track) else {
            return Err(VolumeError::NoMemory);
        };
        Ok(extent.used)
    }

    /// The disk with these tracks, that meets these faults. Its heads are at the index point of track 0.
    ///
    /// Errors, in this order; each hands the volume back:
    ///
    /// - `BadGeometry`: the volume has no track, or its last cylinder is not whole.
    /// - `BadMedium`: the faults are no fault script.
    /// - `NoMemory`.
    pub fn mount(self, alloc: Global, faults: &[Fault]) -> Result<Disk, UnmountedVolume>
        ensures { MountsVolume self faults.now result }
    {
        let count = self.tracks.len();
        let heads = usize::from(self.heads);
        if count == 0 || count % heads != 0 {
            return Err(UnmountedVolume {
                volume: self,
                reason: MountError::BadGeometry,
            });
        }
        if !is_script(faults) {
            return Err(UnmountedVolume {
                volume: self,
                reason: MountError::BadMedium,
            });
        }
        let Ok(faults) = FaultScript::new(alloc, faults) else {
            return Err(UnmountedVolume {
                volume: self,
                reason: MountError::NoMemory,
            });
        };
        let Volume {
            heads,
            track_bytes: _,
            tracks,
        } = self;
        let cylinders = (count / usize::from(heads)) as u16;
        Ok(Disk::of(cylinders, heads, tracks, faults))
    }
}

/// How far the records go that the bytes of a track begin with, up to the end mark. A track has `size` bytes.
fn extent_of(bytes: &[u8], size: usize) -> Result<TrackUse, VolumeError>
    requires { size ≤ 65_535 }
    ensures records { IfOk result (λ e. IsExtent size bytes.now e.used e.count) }
    ensures refused { IfErr result (Stops size bytes.now) }
{
    let room = size.min(bytes.len());
    let mut rest = bytes;
    let mut used = 0;
    let mut count = 0;
    while !rest.starts_with(&END_MARK) {
        if room - used < COUNT_AREA {
            return Err(VolumeError::NoEndMark { at: used as u16 });
        }
        let len = size_of_first(rest);
        if room - used < len {
            return Err(VolumeError::PastTrack { at: used as u16 });
        }
        rest = rest.split_at(len).1;
        used += len;
        count += 1;
    }
    if count == 0 {
        return Err(VolumeError::NoRecord);
    }
    Ok(TrackUse { count, used })
}
