//! What is checked and made when a disk is mounted.

mod refusal;

ghost use Rattle.std.specs.Prelude.{◌≡◌, ℕ, ◌+◌, ◌*◌, ◌/◌, ◌%◌, ◌^◌, ◌<◌, ◌≤◌, IfOk, All, [], length, true, false, nat_le};
ghost use Rattle.std.specs.Bool.{OnTrue};
ghost use Rattle.std.specs.List.{list_all};
ghost use Rattle.ckd_disk.specs.Record.{size_of};
ghost use Rattle.ckd_disk.specs.Track.{bytes_of};
ghost use Rattle.ckd_disk.specs.Mount.{track_count, is_geometry, is_initial, has_room, initial as record_of, id_on, track_of_initial, bytes_on, opening_records, opening_track, opening_tracks};
ghost use Rattle.ckd_disk.specs.MountFacts.{IsGeometry, IsInitial};

use crate::track::Track;
pub use refusal::{GeometryRefusal, Overfull, RecordRefusal, first_overfull};
use std::alloc::{AllocError, Global};

/// How large a disk is (profile). The numbers are as they were read: mounting checks them.
#[derive(Clone, Copy, Debug, PartialEq, Eq)]
pub struct Geometry {
    /// At least 1.
    pub cylinders: u64,
    /// Tracks a cylinder: at least 1, and at most 65,535 tracks in all.
    pub heads: u64,
    /// Bytes a track: 16 to 65,535, and at most 16,777,216 in all.
    pub track_bytes: u64,
}

/// A record that a disk has when it is mounted (profile).
#[derive(Debug, Drop)]
pub struct InitialRecord {
    /// CC, within the geometry.
    pub cylinder: u16,
    /// HH, within the geometry.
    pub head: u16,
    /// R, at least 1.
    pub number: u8,
    /// The key area, at most 255 bytes.
    pub key: Vec<u8>,
    /// The data area, at most 65,535 bytes.
    pub content: Vec<u8>,
}

/// Whether the numbers are those of a geometry.
pub fn is_geometry(geometry: Geometry) -> bool
    ensures value { result ≡ is_geometry geometry }
    ensures facts { OnTrue result (IsGeometry geometry) }
{
    let Some(tracks) = geometry.cylinders.checked_mul(geometry.heads) else {
        return false;
    };
    geometry.cylinders >= 1
        && geometry.heads >= 1
        && tracks <= 65_535
        && geometry.track_bytes >= 16
        && geometry.track_bytes <= 65_535
        && tracks * geometry.track_bytes <= 16_777_216
}

/// Whether a record lies in the geometry, is not R0, and its lengths fit a count area.
fn is_initial(geometry: Geometry, initial: &InitialRecord) -> bool
    ensures value { result ≡ is_initial geometry initial.now }
    ensures facts { OnTrue result (IsInitial geometry initial.now) }
{
    u64::from(initial.cylinder) < geometry.cylinders
        && u64::from(initial.head) < geometry.heads
        && initial.number >= 1
        && initial.key.len() <= 255
        && initial.content.len() <= 65_535
}

/// Whether all records are such.
pub fn are_initial(geometry: Geometry, records: &[InitialRecord]) -> bool
    ensures value { result ≡ list_all (is_initial geometry) records.now }
    ensures facts { OnTrue result (All (IsInitial geometry) records.now) }
{
    records.iter().all(|initial| is_initial(geometry, initial))
}

/// CCHHR.
fn id_at(cylinder: u16, head: u16, number: u8) -> [u8; 5]
    ensures { result ≡ id_on cylinder head number }
{
    let [cylinder_high, cylinder_low] = cylinder.to_be_bytes();
    let [head_high, head_low] = head.to_be_bytes();
    [cylinder_high, cylinder_low, head_high, head_low, number]
}

/// The number of the track of a record.
fn track_of(geometry: Geometry, initial: &InitialRecord) -> u64
    requires geometry { IsGeometry geometry }
    requires initial { IsInitial geometry initial.now }
    ensures number { result ≡ track_of_initial geometry initial.now }
    ensures there { result < track_count geometry }
{
    u64::from(initial.cylinder) * geometry.heads + u64::from(initial.head)
}

/// How many bytes a record takes.
fn size_of(initial: &InitialRecord) -> usize
    requires key { length initial.now.key.items ≤ 255 }
    requires content { length initial.now.content.items ≤ 65_535 }
    ensures value { result ≡ size_of (record_of initial.now) }
    ensures small { result < 2 ^ 17 }
{
    8 + initial.key.len() + initial.content.len()
}

/// How many bytes of a track a record takes: none if it is on another track.
fn bytes_on(geometry: Geometry, initial: &InitialRecord, track: u64) -> u64
    requires geometry { IsGeometry geometry }
    requires initial { IsInitial geometry initial.now }
    ensures bytes { result ≡ bytes_on geometry track initial.now }
    ensures small { result < 2 ^ 17 }
{
    if track_of(geometry, initial) == track {
        size_of(initial) as u64
    } else {
        0
    }
}

/// Whether the records of a track at first fit the track.
fn fits_on(geometry: Geometry, records: &[InitialRecord], track: u64) -> bool
    requires geometry { IsGeometry geometry }
    requires each { All (IsInitial geometry) records.now }
    ensures { result ≡ nat_le (bytes_of (opening_records geometry records.now track)) geometry.track_bytes }
{
    let mut total = 16;
    for initial in records {
        total += bytes_on(geometry, initial, track);
        if total > geometry.track_bytes {
            return false;
        }
    }
    true
}

/// Whether each record's track has room for its records. Takes no memory, and time in the square of the number of
/// records: it is called only if there was no memory for the tracks.
pub fn have_room(geometry: Geometry, records: &[InitialRecord]) -> bool
    requires geometry { IsGeometry geometry }
    requires each { All (IsInitial geometry) records.now }
    ensures { result ≡ list_all (has_room geometry records.now) records.now }
{
    for initial in records {
        if !fits_on(geometry, records, track_of(geometry, initial)) {
            return false;
        }
    }
    true
}

/// A track with R0.
fn described_track(alloc: Global, geometry: Geometry, track: u64) -> Result<Track, AllocError>
    requires geometry { IsGeometry geometry }
    requires there { track < track_count geometry }
    ensures { IfOk result (λ t. t ≡ opening_track geometry [] track) }
{
    let cylinder = (track / geometry.heads) as u16;
    let head = (track % geometry.heads) as u16;
    let mut made = Track::blank(alloc, geometry.track_bytes as usize)?;
    made.append(&id_at(cylinder, head, 0), &[], &[0; 8]);
    Ok(made)
}

/// The tracks of a disk, each with R0.
pub fn described_tracks(alloc: Global, geometry: Geometry) -> Result<Vec<Track>, AllocError>
    requires { IsGeometry geometry }
    ensures { IfOk result (λ tracks. tracks.items ≡ opening_tracks geometry []) }
{
    let count = geometry.cylinders * geometry.heads;
    let mut tracks = Vec::with_capacity(alloc, count as usize)?;
    for track in 0..count {
        tracks.push(described_track(alloc, geometry, track)?)?;
    }
    Ok(tracks)
}

/// Puts the records on their tracks, up to the first that does not fit, and answers whether all do.
pub fn place(tracks: &mut [Track], geometry: Geometry, records: &[InitialRecord]) -> bool
    requires geometry { IsGeometry geometry }
    requires each { All (IsInitial geometry) records.now }
    requires described { tracks.old ≡ opening_tracks geometry [] }
    ensures room { result ≡ list_all (has_room geometry records.now) records.now }
    ensures placed { OnTrue result (tracks.new ≡ opening_tracks geometry records.now) }
{
    for initial in records {
        let track = &mut tracks[track_of(geometry, initial) as usize];
        if !track.has_room(size_of(initial)) {
            return false;
        }
        track.append(
            &id_at(initial.cylinder, initial.head, initial.number),
            &initial.key,
            &initial.content,
        );
    }
    true
}
