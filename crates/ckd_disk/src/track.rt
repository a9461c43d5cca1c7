//! A track of a disk and its records.

mod records;
mod spot;
mod stored;

ghost use Rattle.std.specs.Prelude.{◌≡◌, ℕ, ◌+◌, ◌*◌, ◌<◌, ◌≤◌, ◌^◌, ◌↔◌, IsTrue, IfOk, MatchOption, [], ◌++◌, length};
ghost use Rattle.std.specs.List.{AllByRecursion};
ghost use Rattle.device_port.specs.Packed.{Begins, HoldsItems, items_at, image_of};
ghost use Rattle.ckd_disk.specs.Record.{FitsCountArea, record_with, ckd, count_area, packed, size_of, record_at, size_at, IsRecord, record_written};
ghost use Rattle.ckd_disk.specs.Track.{record_of, bytes_of, bytes_before, IsSpot, IsBehind, with_content, with_key_and_content, with_record_behind, with_last};

use device_port::{Given, fill_at, put_at};
pub use records::{Records, StoredRecord};
pub use spot::Spot;
use std::alloc::{AllocError, Global};
use std::marker::Model;
pub use stored::{COUNT_AREA, size_given, size_of_first};
use stored::{content_of, count_area_of, first, id_of, key_of, parts_of, put_record};

/// A track as one image of its size: its records packed in order, and then unused bytes.
#[derive(Debug, Drop)]
pub struct Track {
    bytes: Vec<u8>,
    used: usize,
    count: usize,
}

impl Model for Track {
    ghost use Rattle.std.specs.Prelude.{length};
    ghost use Rattle.device_port.specs.Packed.{items_at, HoldsItems};
    ghost use Rattle.ckd_disk.specs.Record.{ckd};
    ghost use Rattle.ckd_disk.specs.Track.{TrackState};

    ghost Value = { TrackState };

    ghost view = { λ t. record { size = length t.bytes.items; records = items_at ckd t.count t.bytes.items } };

    ghost invariant = { λ t. HoldsItems ckd t.bytes.items t.used t.count };
}

impl Track {
    /// A track without records.
    pub fn blank(alloc: Global, size: usize) -> Result<Self, AllocError>
        ensures { IfOk result (λ t. t ≡ record { size = size; records = [] }) }
    {
        Ok(Track {
            bytes: vec![in alloc; 0; size]?,
            used: 0,
            count: 0,
        })
    }

    /// A track with the records that are packed in `records`.
    pub fn recorded(
        alloc: Global,
        size: usize,
        records: &[u8],
        count: usize,
    ) -> Result<Self, AllocError>
        requires held { HoldsItems ckd records.now (length records.now) count }
        requires room { length records.now ≤ size }
        ensures { IfOk result (λ t. t ≡ record { size = size; records = items_at ckd count records.now }) }
    {
        let mut bytes = Vec::with_capacity(alloc, size)?;
        bytes.extend_from_slice(records)?;
        bytes.resize(size, 0)?;
        Ok(Track {
            bytes,
            used: records.len(),
            count,
        })
    }

    /// Copies the track and its records. Fails only if memory runs out.
    pub fn copy(&self) -> Result<Self, AllocError>
        ensures { IfOk result (λ t. t ≡ self.now) }
    {
        Ok(Track {
            bytes: self.bytes.clone()?,
            used: self.used,
            count: self.count,
        })
    }

    /// Becomes the same as another track of its size. Never allocates. Takes time in the bytes of the records of `from`.
    pub fn copy_from(&mut self, from: &Self)
        requires { self.old.size ≡ from.now.size }
        ensures { self.new ≡ from.now }
    {
        put_at(&mut self.bytes, 0, from.image());
        self.used = from.used;
        self.count = from.count;
    }

    /// Whether `len` bytes fit after the last record.
    pub fn has_room(&self, len: usize) -> bool
        ensures { IsTrue result ↔ (bytes_of self.now.records + len ≤ self.now.size) }
    {
        len <= self.bytes.len() - self.used
    }

    /// Adds a record after the last one.
    pub fn append(&mut self, id: &[u8; 5], key: &[u8], content: &[u8])
        requires key { length key.now < 256 }
        requires content { length content.now < 2 ^ 16 }
        requires room { bytes_of self.old.records + size_of (record_with id.now key.now content.now) ≤ self.old.size }
        ensures { self.new ≡ with_last self.old (record_with id.now key.now content.now) }
    {
        put_record(&mut self.bytes, self.used, id, key, content);
        self.used += COUNT_AREA + key.len() + content.len();
        self.count += 1;
    }

    /// How many records the track has.
    pub fn len(&self) -> usize
        ensures { result ≡ length self.now.records }
    {
        self.count
    }

    /// How many bytes the track has.
    pub fn size(&self) -> usize
        ensures { result ≡ self.now.size }
    {
        self.bytes.len()
    }

    /// The bytes of the records, packed one after the other from the index point on.
    pub fn image(&self) -> &[u8]
        ensures image { result.now ≡ image_of ckd self.now.records }
        ensures within { length result.now ≤ self.now.size }
        ensures fits { AllByRecursion FitsCountArea self.now.records }
    {
        &self.bytes.as_slice()[..self.used]
    }

    /// The records, from the index point on.
    pub fn records(&self) -> Records<'_>
        ensures { result ≡ self.now.records }
    {
        Records::new(&self.bytes, self.used, self.count)
    }

    /// R0.
    pub fn first(&self) -> Spot
        requires { 0 < length self.now.records }
        ensures spot { IsSpot self.now.records result }
        ensures place { result.place ≡ 0 }
    {
        Spot {
            place: 0,
            offset: 0,
        }
    }

    /// The record after a record, unless that is the last one.
    pub fn behind(&self, spot: Spot) -> Option<Spot>
        requires { IsSpot self.now.records spot }
        ensures { MatchOption result (length self.now.records ≡ spot.place + 1) (IsBehind self.now.records spot) }
    {
        let count = self.count;
        let place = spot.place + 1;
        if place == count {
            return None;
        }
        Some(Spot {
            place,
            offset: self.end_of(spot),
        })
    }

    /// The image from a record on.
    fn from(&self, spot: Spot) -> &[u8]
        requires { IsSpot self.now.records spot }
        ensures found { Begins ckd result.now (record_of self.now.records spot.place) }
        ensures start { spot.offset + length result.now ≡ self.now.size }
        ensures small { self.now.size < 2 ^ 64 }
    {
        self.bytes.as_slice().split_at(spot.offset).1
    }

    /// Where a record ends in the image.
    fn end_of(&self, spot: Spot) -> usize
        requires { IsSpot self.now.records spot }
        ensures end { result ≡ bytes_before self.now.records (spot.place + 1) }
        ensures within { result ≤ self.now.size }
        ensures behind { spot.offset + size_of (record_of self.now.records spot.place) ≡ result }
    {
        spot.offset + size_of_first(self.from(spot))
    }

    /// The bytes of a record on the track: count area, key area and data area.
    pub fn stored(&self, spot: Spot) -> &[u8]
        requires { IsSpot self.now.records spot }
        ensures packed { result.now ≡ packed (record_of self.now.records spot.place) }
        ensures found { record_at result.now ≡ record_of self.now.records spot.place }
        ensures whole { IsRecord result.now }
        ensures fits { FitsCountArea (record_of self.now.records spot.place) }
        ensures len { length result.now ≡ size_of (record_of self.now.records spot.place) }
    {
        first(self.from(spot))
    }

    /// The CCHHR of a record.
    pub fn id(&self, spot: Spot) -> &[u8]
        requires { IsSpot self.now.records spot }
        ensures id { result.now ≡ (record_of self.now.records spot.place).id }
        ensures len { length result.now ≡ 5 }
    {
        id_of(self.stored(spot))
    }

    /// The key area of a record.
    pub fn key(&self, spot: Spot) -> &[u8]
        requires { IsSpot self.now.records spot }
        ensures key { result.now ≡ (record_of self.now.records spot.place).key }
        ensures short { length result.now ≤ 255 }
    {
        key_of(self.stored(spot))
    }

    /// The data area of a record.
    pub fn content(&self, spot: Spot) -> &[u8]
        requires { IsSpot self.now.records spot }
        ensures content { result.now ≡ (record_of self.now.records spot.place).content }
        ensures short { length result.now < 2 ^ 16 }
    {
        content_of(self.stored(spot))
    }

    /// The count area of a record.
    pub fn count_area(&self, spot: Spot) -> &[u8]
        requires { IsSpot self.now.records spot }
        ensures count_area { result.now ≡ count_area (record_of self.now.records spot.place) }
        ensures len { length result.now ≡ 8 }
    {
        count_area_of(self.stored(spot))
    }

    /// The key and data area of a record.
    pub fn parts(&self, spot: Spot) -> &[u8]
        requires { IsSpot self.now.records spot }
        ensures parts { result.now
            ≡ (record_of self.now.records spot.place).key ++ (record_of self.now.records spot.place).content }
        ensures short { length result.now < 2 ^ 17 }
    {
        parts_of(self.stored(spot))
    }

    /// Whether `len` bytes fit after a record.
    pub fn has_room_behind(&self, spot: Spot, len: usize) -> bool
        requires { IsSpot self.now.records spot }
        ensures { IsTrue result ↔ (bytes_before self.now.records (spot.place + 1) + len ≤ self.now.size) }
    {
        len <= self.bytes.len() - self.end_of(spot)
    }

    /// Writes the data area of a record: the bytes given, filled up with zeros.
    pub fn set_content(&mut self, spot: Spot, given: &Given<'_>)
        requires { IsSpot self.old.records spot }
        ensures track { self.new ≡ with_content self.old spot.place given.now }
        ensures spot { IsSpot self.new.records spot }
    {
        let len = self.content(spot).len();
        let from = self.end_of(spot) - len;
        fill_at(&mut self.bytes, from, len, given);
    }

    /// Writes the key and data area of a record: the bytes given, filled up with zeros.
    pub fn set_parts(&mut self, spot: Spot, given: &Given<'_>)
        requires { IsSpot self.old.records spot }
        ensures track { self.new ≡ with_key_and_content self.old spot.place given.now }
        ensures spot { IsSpot self.new.records spot }
    {
        let len = self.parts(spot).len();
        let from = self.end_of(spot) - len;
        fill_at(&mut self.bytes, from, len, given);
    }

    /// Erases all after a record, and puts the record that the given bytes make there.
    pub fn put_behind(&mut self, spot: Spot, given: &Given<'_>) -> Spot
        requires spot { IsSpot self.old.records spot }
        requires count_area { 8 ≤ length given.now }
        requires room { bytes_before self.old.records (spot.place + 1) + size_at given.now ≤ self.old.size }
        ensures track { self.new ≡ with_record_behind self.old spot.place (record_written given.now) }
        ensures spot { IsSpot self.new.records result }
        ensures place { result.place ≡ spot.place + 1 }
    {
        let offset = self.end_of(spot);
        let len = size_given(given);
        fill_at(&mut self.bytes, offset, len, given);
        self.used = offset + len;
        self.count = spot.place + 2;
        Spot {
            place: spot.place + 1,
            offset,
        }
    }
}
