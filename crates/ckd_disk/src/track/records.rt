//! A reader of the records of a track.

ghost use Rattle.std.specs.Prelude.{◌≡◌, []};
ghost use Rattle.std.specs.Iterator.{YieldsFirst, item_count};
ghost use Rattle.device_port.specs.Packed.{items_at, HoldsItems};
ghost use Rattle.ckd_disk.specs.Record.{ckd};

use crate::track::stored::{content_of, id_of, key_of, size_of_first};
use std::marker::Model;

/// A record on a track.
#[derive(Drop)]
pub struct StoredRecord<'a> {
    bytes: &'a [u8],
}

impl<'a> Model for StoredRecord<'a> {
    ghost use Rattle.ckd_disk.specs.Record.{Record, record_at, IsRecord};

    ghost Value = { Record };

    ghost view = { λ s. record_at s.bytes.now };

    ghost invariant = { λ s. IsRecord s.bytes.now };
}

impl<'a> StoredRecord<'a> {
    /// The CCHHR of its count area, 5 bytes.
    pub fn id(&self) -> &'a [u8]
        ensures { result.now ≡ self.now.id }
    {
        id_of(self.bytes)
    }

    /// The key area, at most 255 bytes.
    pub fn key(&self) -> &'a [u8]
        ensures { result.now ≡ self.now.key }
    {
        key_of(self.bytes)
    }

    /// The data area, at most 65,535 bytes.
    pub fn content(&self) -> &'a [u8]
        ensures { result.now ≡ self.now.content }
    {
        content_of(self.bytes)
    }
}

/// The records of a track that are left, in their order.
#[derive(Drop)]
pub struct Records<'a> {
    rest: &'a [u8],
    used: usize,
    left: usize,
}

impl<'a> Model for Records<'a> {
    ghost use Rattle.std.specs.Prelude.{List};
    ghost use Rattle.device_port.specs.Packed.{items_at, HoldsItems};
    ghost use Rattle.ckd_disk.specs.Record.{Record, ckd};

    ghost Value = { List Record };

    ghost view = { λ r. items_at ckd r.left r.rest.now };

    ghost invariant = { λ r. HoldsItems ckd r.rest.now r.used r.left };
}

impl<'a> Records<'a> {
    /// No record.
    #[tactic(auto, unfolding(device_port::specs::Packed::items_at))]
    pub fn none() -> Self
        ensures { result ≡ [] }
    {
        Records::new(&[], 0, 0)
    }

    /// The packed records of an image: how many bytes they take, and how many they are.
    pub fn new(rest: &'a [u8], used: usize, left: usize) -> Self
        requires { HoldsItems ckd rest.now used left }
        ensures { result ≡ items_at ckd left rest.now }
    {
        Records { rest, used, left }
    }
}

impl<'a> Iterator for Records<'a> {
    type Item = StoredRecord<'a>;

    ghost next_gives = { YieldsFirst (λ r. r) };

    ghost remaining = { item_count (λ r. r) };

    fn next(&mut self) -> Option<StoredRecord<'a>> {
        if self.left == 0 {
            return None;
        }
        let size = size_of_first(self.rest);
        let (bytes, rest) = self.rest.split_at(size);
        self.rest = rest;
        self.used -= size;
        self.left -= 1;
        Some(StoredRecord { bytes })
    }
}
