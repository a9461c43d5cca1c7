//! The parts of a record in the image of a track.

ghost use Rattle.std.specs.Prelude.{◌≡◌, ℕ, ◌+◌, ◌*◌, ◌^◌, ◌<◌, ◌≤◌, length, take, drop};
ghost use Rattle.device_port.specs.Moves.{written};
ghost use Rattle.ckd_disk.specs.Record.{record_with, packed, size_of, key_len, content_len, size_at, record_at, IsRecord};

use device_port::{Given, put_at};

/// The bytes of a count area.
pub const COUNT_AREA: usize = 8;

/// Writes a record into an image from `at` on.
pub fn put_record(image: &mut [u8], at: usize, id: &[u8; 5], key: &[u8], content: &[u8])
    requires key { length key.now < 256 }
    requires content { length content.now < 2 ^ 16 }
    requires room { at + size_of (record_with id.now key.now content.now) ≤ length image.old }
    ensures { image.new ≡ written image.old at (packed (record_with id.now key.now content.now)) }
{
    let lengths = [
        key.len() as u8,
        (content.len() / 256) as u8,
        (content.len() % 256) as u8,
    ];
    put_at(image, at, id);
    put_at(image, at + 5, &lengths);
    put_at(image, at + COUNT_AREA, key);
    put_at(image, at + COUNT_AREA + key.len(), content);
}

/// How many bytes the record takes that these bytes begin with.
pub fn size_of_first(bytes: &[u8]) -> usize
    requires { 8 ≤ length bytes.now }
    ensures { result ≡ size_at bytes.now }
{
    COUNT_AREA + usize::from(bytes[5]) + usize::from(bytes[6]) * 256 + usize::from(bytes[7])
}

/// How many bytes the record takes whose count area a program gives.
pub fn size_given(given: &Given<'_>) -> usize
    requires { 8 ≤ length given.now }
    ensures size { result ≡ size_at given.now }
    ensures small { result < 2 ^ 17 }
{
    let mut head = [0; COUNT_AREA];
    given.fill(&mut head);
    size_of_first(&head)
}

/// The bytes of the record that these bytes begin with.
pub fn first(bytes: &[u8]) -> &[u8]
    requires { size_at bytes.now ≤ length bytes.now }
    ensures { result.now ≡ take (size_at bytes.now) bytes.now }
{
    &bytes[..size_of_first(bytes)]
}

/// The CCHHR of a record.
#[tactic(auto, unfolding(crate::specs::Record::record_at))]
pub fn id_of(stored: &[u8]) -> &[u8]
    requires { IsRecord stored.now }
    ensures { result.now ≡ (record_at stored.now).id }
{
    &stored[..5]
}

/// The key area of a record.
#[tactic(auto, unfolding(crate::specs::Record::record_at))]
pub fn key_of(stored: &[u8]) -> &[u8]
    requires { IsRecord stored.now }
    ensures { result.now ≡ (record_at stored.now).key }
{
    let key_len = usize::from(stored[5]);
    &stored[COUNT_AREA..COUNT_AREA + key_len]
}

/// The data area of a record.
#[tactic(auto, unfolding(crate::specs::Record::record_at))]
pub fn content_of(stored: &[u8]) -> &[u8]
    requires { IsRecord stored.now }
    ensures { result.now ≡ (record_at stored.now).content }
{
    let from = COUNT_AREA + usize::from(stored[5]);
    &stored[from..]
}

/// The count area of a record.
pub fn count_area_of(stored: &[u8]) -> &[u8]
    requires { 8 ≤ length stored.now }
    ensures { result.now ≡ take 8 stored.now }
{
    &stored[..COUNT_AREA]
}

/// The key and data area of a record.
pub fn parts_of(stored: &[u8]) -> &[u8]
    requires { 8 ≤ length stored.now }
    ensures { result.now ≡ drop 8 stored.now }
{
    &stored[COUNT_AREA..]
}
