//! The medium of a tape.

ghost use Rattle.std.specs.Prelude.{◌≡◌, ◌+◌, ◌-◌, ◌<◌, ◌≤◌, [], IfOk, IfSome, MatchOption, Some, None, true, length, take, drop, reverse};
ghost use Rattle.std.specs.List.{position};
ghost use Rattle.byteorder.specs.Endian.{big_bytes};
ghost use Rattle.device_port.specs.Moves.{written};
ghost use Rattle.device_port.specs.Packed.{Begins, items_at};
ghost use Rattle.tape_unit.specs.Item.{is_mark, block, content_of, item_with, is_item, packed, length_at, on_tape};
ghost use Rattle.tape_unit.specs.Reel.{HoldsReel, IsOn, longest_reel, item_of, bytes_before, has_room_at, with_item_at};

use crate::position::Position;
use crate::stored::{Items, Stored};
use byteorder::{BigEndian, ByteOrder};
use device_port::{Given, fill_at, put_at};
use std::alloc::{AllocError, Global};
use std::marker::Model;

/// The bytes of a length.
const LENGTH: usize = 2;

/// The bytes that an item takes beside its data: its length before it and after it. No item takes fewer.
pub const LENGTHS: usize = 4;

/// The most bytes that a block has.
pub const LONGEST_BLOCK: usize = 65_535;

/// The most bytes that a reel has: 4 GiB.
pub const LONGEST_REEL: u64 = 4_294_967_296;

/// A reel as one buffer of its size: its items packed in order, each between its length and its length, and a rest
/// that means nothing.
#[derive(Debug, Drop)]
pub struct Reel {
    bytes: Vec<u8>,
    used: usize,
    count: usize,
}

impl Model for Reel {
    ghost use Rattle.std.specs.Prelude.{length};
    ghost use Rattle.device_port.specs.Packed.{items_at};
    ghost use Rattle.tape_unit.specs.Item.{on_tape};
    ghost use Rattle.tape_unit.specs.Reel.{ReelState, HoldsReel};

    ghost Value = { ReelState };

    ghost view = { λ r. record { size = length r.bytes.items; items = items_at on_tape r.count r.bytes.items } };

    ghost invariant = { λ r. HoldsReel r.bytes.items r.used r.count };
}

impl Reel {
    /// A reel without items.
    pub fn blank(alloc: Global, size: usize) -> Result<Self, AllocError>
        requires { size ≤ longest_reel }
        ensures { IfOk result (λ r. r ≡ record { size = size; items = [] }) }
    {
        Ok(Reel {
            bytes: vec![in alloc; 0; size]?,
            used: 0,
            count: 0,
        })
    }

    /// The reel of a buffer that begins with `count` items, which take `used` bytes.
    pub fn of(bytes: Vec<u8>, used: usize, count: usize) -> Self
        requires { HoldsReel bytes.items used count }
        ensures { result ≡ record { size = length bytes.items; items = items_at on_tape count bytes.items } }
    {
        Reel { bytes, used, count }
    }

    /// Copies the reel: its items, its position and its size. Fails only if memory runs out.
    pub fn copy(&self) -> Result<Self, AllocError>
        ensures { IfOk result (λ r. r ≡ self.now) }
    {
        Ok(Reel {
            bytes: self.bytes.clone()?,
            used: self.used,
            count: self.count,
        })
    }

    /// Becomes the same as another reel of its size. Never allocates. Takes time in the bytes of the items of `from`.
    pub fn copy_from(&mut self, from: &Self)
        requires { self.old.size ≡ from.now.size }
        ensures { self.new ≡ from.now }
    {
        put_at(&mut self.bytes, 0, &from.bytes[..from.used]);
        self.used = from.used;
        self.count = from.count;
    }

    /// How many items there are.
    pub fn len(&self) -> usize
        ensures { result ≡ length self.now.items }
    {
        self.count
    }

    /// The items, from the load point on.
    pub fn items(&self) -> Items<'_>
        ensures { result ≡ self.now.items }
    {
        Items::new(self)
    }

    /// How many bytes it has.
    pub fn size(&self) -> usize
        ensures { result ≡ self.now.size }
    {
        self.bytes.len()
    }

    /// The position after the last item.
    pub fn end(&self) -> Position
        ensures on { IsOn self.now.items result }
        ensures last { result.place ≡ length self.now.items }
    {
        Position {
            place: self.count,
            offset: self.used,
        }
    }

    /// The buffer from the item after a position on.
    fn from(&self, at: Position) -> &[u8]
        requires on { IsOn self.now.items at }
        requires before { at.place < length self.now.items }
        ensures item { Begins on_tape result.now (item_of self.now.items at.place) }
        ensures within { bytes_before self.now.items (at.place + 1) ≤ longest_reel }
        ensures few { at.place < longest_reel }
    {
        self.bytes.as_slice().split_at(at.offset).1
    }

    /// The item after a position.
    pub fn item(&self, at: Position) -> Stored<'_>
        requires on { IsOn self.now.items at }
        requires before { at.place < length self.now.items }
        ensures item { result ≡ item_of self.now.items at.place }
        ensures short { length (content_of result) ≤ 65_535 }
    {
        Stored::new(first_content(self.from(at)))
    }

    /// The position after the item that is after a position.
    pub fn next(&self, at: Position) -> Position
        requires on { IsOn self.now.items at }
        requires before { at.place < length self.now.items }
        ensures on { IsOn self.now.items result }
        ensures next { result.place ≡ at.place + 1 }
    {
        let len = read_length(self.from(at));
        Position {
            place: at.place + 1,
            offset: at.offset + LENGTHS + len,
        }
    }

    /// The position before the item that is before a position.
    pub fn previous(&self, at: Position) -> Position
        requires on { IsOn self.now.items at }
        requires after { 0 < at.place }
        ensures on { IsOn self.now.items result }
        ensures previous { result.place ≡ at.place - 1 }
    {
        let len = read_length(self.bytes.as_slice().split_at(at.offset - LENGTH).1);
        Position {
            place: at.place - 1,
            offset: at.offset - LENGTHS - len,
        }
    }

    /// The position before the first tape mark that goes by forward from a position, if one does.
    pub fn mark_ahead(&self, at: Position) -> Option<Position>
        requires { IsOn self.now.items at }
        ensures on { IfSome result (λ mark. IsOn self.now.items mark) }
        ensures within { IfSome result (λ mark. mark.place < length self.now.items) }
        ensures ahead { IfSome result (λ mark. at.place ≤ mark.place) }
        ensures first { MatchOption result (position is_mark (drop at.place self.now.items) ≡ None) (λ mark. position is_mark (drop at.place self.now.items) ≡ Some (mark.place - at.place)) }
    {
        let mut here = at;
        while here.place < self.len() {
            if self.item(here).is_mark() {
                return Some(here);
            }
            here = self.next(here);
        }
        None
    }

    /// The position before the first tape mark that goes by backward from a position, if one does.
    pub fn mark_behind(&self, at: Position) -> Option<Position>
        requires { IsOn self.now.items at }
        ensures on { IfSome result (λ mark. IsOn self.now.items mark) }
        ensures behind { IfSome result (λ mark. mark.place < at.place) }
        ensures first { MatchOption result (position is_mark (reverse (take at.place self.now.items)) ≡ None) (λ mark. position is_mark (reverse (take at.place self.now.items)) ≡ Some (at.place - 1 - mark.place)) }
    {
        let mut here = at;
        while here.place > 0 {
            here = self.previous(here);
            if self.item(here).is_mark() {
                return Some(here);
            }
        }
        None
    }

    /// Whether the reel has room for an item with `len` bytes of data at a position.
    pub fn has_room(&self, at: Position, len: usize) -> bool
        requires on { IsOn self.now.items at }
        requires len { len ≤ 65_535 }
        ensures { result ≡ has_room_at self.now at.place len }
    {
        let size = self.bytes.len();
        at.offset + LENGTHS + len <= size
    }

    /// Writes a block of the first bytes given at a position, erases what was after it, and returns the position after
    /// the block.
    pub fn put_given(&mut self, at: Position, given: &Given<'_>, len: usize) -> Position
        requires on { IsOn self.old.items at }
        requires some { 1 ≤ len }
        requires short { len ≤ 65_535 }
        requires given { len ≤ length given.now }
        requires room { has_room_at self.old at.place len ≡ true }
        ensures reel { self.new ≡ with_item_at self.old at.place (block (take len given.now)) }
        ensures on { IsOn self.new.items result }
        ensures behind { result.place ≡ at.place + 1 }
    {
        write_given(&mut self.bytes, at.offset, given, len);
        let behind = Position {
            place: at.place + 1,
            offset: at.offset + LENGTHS + len,
        };
        self.count = behind.place;
        self.used = behind.offset;
        behind
    }

    /// Writes an item at a position, erases what was after it, and returns the position after the item. An item without
    /// data is a tape mark.
    pub fn put(&mut self, at: Position, content: &[u8]) -> Position
        requires on { IsOn self.old.items at }
        requires item { is_item (item_with content.now) ≡ true }
        requires room { has_room_at self.old at.place (length content.now) ≡ true }
        ensures reel { self.new ≡ with_item_at self.old at.place (item_with content.now) }
        ensures on { IsOn self.new.items result }
        ensures behind { result.place ≡ at.place + 1 }
    {
        write_item(&mut self.bytes, at.offset, content);
        let end = Position {
            place: at.place + 1,
            offset: at.offset + LENGTHS + content.len(),
        };
        self.count = end.place;
        self.used = end.offset;
        end
    }
}

/// The length that bytes begin with.
fn read_length(bytes: &[u8]) -> usize
    requires { 2 ≤ length bytes.now }
    ensures length { result ≡ length_at bytes.now }
    ensures short { result ≤ 65_535 }
{
    BigEndian::read_u16(bytes) as usize
}

/// The data of the item that bytes begin with.
fn first_content(bytes: &[u8]) -> &[u8]
    requires { 4 + length_at bytes.now ≤ length bytes.now }
    ensures { result.now ≡ take (length_at bytes.now) (drop 2 bytes.now) }
{
    let len = read_length(bytes);
    &bytes[LENGTH..LENGTH + len]
}

/// Writes the length of an item into an image.
fn write_length(image: &mut [u8], at: usize, len: usize)
    requires room { at + 2 ≤ length image.old }
    requires short { len ≤ 65_535 }
    ensures { image.new ≡ written image.old at (big_bytes 2 len) }
{
    let mut word = [0; LENGTH];
    BigEndian::write_u16(&mut word, len as u16);
    put_at(image, at, &word);
}

/// Writes an item into an image.
pub fn write_item(image: &mut [u8], at: usize, content: &[u8])
    requires room { at + (4 + length content.now) ≤ length image.old }
    requires short { length content.now ≤ 65_535 }
    ensures { image.new ≡ written image.old at (packed (item_with content.now)) }
{
    write_length(image, at, content.len());
    put_at(image, at + LENGTH, content);
    write_length(image, at + LENGTH + content.len(), content.len());
}

/// Writes a block of the first bytes given into an image.
fn write_given(image: &mut [u8], at: usize, given: &Given<'_>, len: usize)
    requires room { at + (4 + len) ≤ length image.old }
    requires short { len ≤ 65_535 }
    requires given { len ≤ length given.now }
    ensures { image.new ≡ written image.old at (packed (block (take len given.now))) }
{
    write_length(image, at, len);
    fill_at(image, at + LENGTH, len, given);
    write_length(image, at + LENGTH + len, len);
}
