//! What is wrong with a disk that is not mounted.

ghost use Rattle.std.specs.Prelude.{◌≡◌, IfNone, IfOk, IfSome, true, false};
ghost use Rattle.std.specs.List.{list_all};
ghost use Rattle.ckd_disk.specs.Mount.{has_room, is_geometry, is_initial};
ghost use Rattle.ckd_disk.specs.Refusals.{GeometryFails, RecordFails};

use super::{
    Geometry, InitialRecord, are_initial, described_tracks, is_geometry, is_initial, place,
};
use crate::track::Track;
use std::alloc::{AllocError, Global};

/// Which number of a geometry is outside its range.
#[derive(Clone, Copy)]
pub enum GeometryRefusal {
    /// There is no cylinder.
    Cylinders,
    /// There is no head.
    Heads,
    /// There are more than 65,535 tracks.
    Tracks,
    /// A track has less than 16 or more than 65,535 bytes.
    TrackBytes,
    /// There are more than 16,777,216 bytes.
    Bytes,
}

impl Geometry {
    /// Returns the first number that is outside its range. Assumes that the numbers are no geometry.
    pub fn refusal(self) -> Option<GeometryRefusal>
        ensures none { IfNone result (is_geometry self ≡ true) }
        ensures some { IfSome result (λ r. is_geometry self ≡ false) }
        ensures number { IfSome result (GeometryFails self) }
    {
        if is_geometry(self) {
            return None;
        }
        if self.cylinders == 0 {
            return Some(GeometryRefusal::Cylinders);
        }
        if self.heads == 0 {
            return Some(GeometryRefusal::Heads);
        }
        match self.cylinders.checked_mul(self.heads) {
            Some(tracks) if tracks <= 65_535 => {}
            _ => return Some(GeometryRefusal::Tracks),
        }
        if self.track_bytes < 16 || self.track_bytes > 65_535 {
            return Some(GeometryRefusal::TrackBytes);
        }
        Some(GeometryRefusal::Bytes)
    }
}

/// What is wrong with a record that a disk is to have.
#[derive(Clone, Copy)]
pub enum RecordRefusal {
    /// Its cylinder is not in the geometry.
    Cylinder,
    /// Its head is not in the geometry.
    Head,
    /// Its number is 0.
    Number,
    /// Its key has more than 255 bytes.
    Key,
    /// Its data have more than 65,535 bytes.
    Content,
}

impl InitialRecord {
    /// Returns the first reason why no track can hold this record.
    pub fn refusal(&self, geometry: Geometry) -> Option<RecordRefusal>
        ensures none { IfNone result (is_initial geometry self.now ≡ true) }
        ensures some { IfSome result (λ r. is_initial geometry self.now ≡ false) }
        ensures part { IfSome result (RecordFails geometry self.now) }
    {
        if is_initial(geometry, self) {
            return None;
        }
        if u64::from(self.cylinder) >= geometry.cylinders {
            return Some(RecordRefusal::Cylinder);
        }
        if u64::from(self.head) >= geometry.heads {
            return Some(RecordRefusal::Head);
        }
        if self.number == 0 {
            return Some(RecordRefusal::Number);
        }
        if self.key.len() > 255 {
            return Some(RecordRefusal::Key);
        }
        Some(RecordRefusal::Content)
    }
}

/// A track that is too small for its records.
#[derive(Clone, Copy)]
pub struct Overfull {
    /// The position, among the records, of the first one that does not fit after those before it.
    pub record: usize,
    /// How many bytes the track's records take in all, its R0 among them.
    pub needed: u64,
}

/// Returns the first track whose records do not fit. Assumes that geometry and records are valid otherwise. Takes as
/// much memory as a mounted disk.
pub fn first_overfull(
    alloc: Global,
    geometry: Geometry,
    records: &[InitialRecord],
) -> Result<Option<Overfull>, AllocError>
    ensures { IfOk result (λ told. IfSome told (λ o. list_all (has_room geometry records.now) records.now ≡ false)) }
{
    if !is_geometry(geometry) || !are_initial(geometry, records) {
        return Ok(None);
    }
    let mut tracks = described_tracks(alloc, geometry)?;
    if place(&mut tracks, geometry, records) {
        return Ok(None);
    }
    let record = placed(&tracks);
    let needed = records
        .get(record)
        .map_or(0, |one| bytes_needed(records, one));
    Ok(Some(Overfull { record, needed }))
}

/// How many records were put on tracks after their R0.
fn placed(tracks: &[Track]) -> usize {
    let mut count: usize = 0;
    for track in tracks {
        count = count.saturating_add(track.len().saturating_sub(1));
    }
    count
}

/// How many bytes R0 and the records on the track of one of them take.
fn bytes_needed(records: &[InitialRecord], one: &InitialRecord) -> u64 {
    let mut total: u64 = 16;
    for other in records {
        if other.cylinder == one.cylinder && other.head == one.head {
            total = total
                .saturating_add(8)
                .saturating_add(other.key.len() as u64)
                .saturating_add(other.content.len() as u64);
        }
    }
    total
}
