//! Images of tapes, written.

ghost use Rattle.std.specs.Prelude.{◌≡◌, ◌++◌, ◌≤◌, ℕ, List, IfOk, OnOk, length, true};
ghost use Rattle.std.specs.Io.KnownBytes.{Appends};
ghost use Rattle.std.specs.Str.{bytes_eq};
ghost use Rattle.tape_unit.specs.Item.{block, content_of, is_item};
ghost use Rattle.aws_tape.specs.Layout.{count_before, own_count, bytes_in};
ghost use Rattle.aws_tape.specs.Writing.{header_of, flags_of, chunks_of, is_split, item_image, last_len, last_length, common, saved, IsReadBack, IsLoaded, IsUntouched};

use crate::layout::{Layout, Part};
use std::io::{self, Write};
use tape_unit::{Items, Stored, Tape};

/// Writes the image of a tape. What it has in common with the tape as mounted, from the load point on, is written in
/// the chunks of the layout. The rest has one chunk for each block. So a tape that was loaded from an image and not
/// written is saved as this image, byte for byte. A write changes no bytes of the items before it.
///
/// Error: that of the writer. A part of the image is written then.
pub fn save<W: Write>(writer: &mut W, layout: &Layout, mounted: &Tape, now: &Tape) -> io::Result<()>
    ensures image { OnOk result (Appends (W.contents writer.old) (W.contents writer.new) (saved layout.now mounted.now.reel.items now.now.reel.items)) }
    ensures read_back { OnOk result (IsReadBack now.now.reel.items (saved layout.now mounted.now.reel.items now.now.reel.items)) }
    ensures as_loaded { OnOk result ((image : List ℕ) → IsLoaded layout.now mounted.now.reel.items image → now.now.reel.items ≡ mounted.now.reel.items → Appends (W.contents writer.old) (W.contents writer.new) image) }
    ensures untouched { OnOk result (IsUntouched layout.now mounted.now.reel.items now.now.reel.items (saved layout.now mounted.now.reel.items now.now.reel.items)) }
{
    let kept = common(mounted, now);
    let parts = layout.parts();
    let mut parts = &parts[..count_before(parts, kept)];
    let mut previous = 0;
    // No effect at run time. The proof reads that the indices of all items are numbers.
    let _ = now.len();
    for (place, item) in now.items().enumerate() {
        let (own, others) = parts.split_at(own_count(parts, place));
        previous = write_item(writer, previous, own, &item)?;
        parts = others;
    }
    Ok(())
}

/// How many items two tapes have in common from their load points on.
pub(crate) fn common(mounted: &Tape, now: &Tape) -> usize
    ensures { result ≡ common mounted.now.reel.items now.now.reel.items }
{
    let most = mounted.len();
    let mut others = now.items();
    for (place, item) in mounted.items().enumerate() {
        let Some(other) = others.next() else {
            return place;
        };
        if !is_same(&item, &other) {
            return place;
        }
    }
    most
}

/// Whether two items are the same.
fn is_same(item: &Stored<'_>, other: &Stored<'_>) -> bool
    ensures { result ≡ bytes_eq (content_of item.now) (content_of other.now) }
{
    item.content() == other.content()
}

/// How many chunks are of the items before an index, if they are in order.
pub(crate) fn count_before(parts: &[Part], place: usize) -> usize
    ensures { result ≡ count_before place parts.now }
{
    parts
        .iter()
        .take_while(|part| (part.item as usize) < place)
        .count()
}

/// How many chunks are of the item at an index, if they begin with those.
fn own_count(parts: &[Part], place: usize) -> usize
    ensures { result ≡ own_count place parts.now }
{
    parts
        .iter()
        .take_while(|part| part.item as usize == place)
        .count()
}

/// Writes the chunks of an item after one of `previous` bytes, and returns the length of the last.
fn write_item<W: Write>(
    writer: &mut W,
    previous: u16,
    parts: &[Part],
    item: &Stored<'_>,
) -> io::Result<u16>
    ensures image { OnOk result (Appends (W.contents writer.old) (W.contents writer.new) (item_image previous parts.now item.now)) }
    ensures last { IfOk result (λ len. len ≡ last_len previous parts.now item.now) }
    ensures item { is_item item.now ≡ true }
{
    let len = item.len();
    let Some(bytes) = item.block() else {
        write_chunk(writer, header_of(0, previous, 0x40), &[])?;
        return Ok(0);
    };
    if is_split(parts, bytes) {
        return write_parts(writer, previous, parts, bytes);
    }
    write_chunk(writer, header_of(len, previous, 0xA0), bytes)?;
    Ok(len)
}

/// Whether a block is written in these chunks: they are several, and have its bytes.
fn is_split(parts: &[Part], bytes: &[u8]) -> bool
    ensures { result ≡ is_split parts.now bytes.now }
{
    let mut rest = bytes.len();
    let mut left = parts;
    while let Some((part, after)) = left.split_first() {
        let len = part.len as usize;
        if len > rest {
            return false;
        }
        rest -= len;
        left = after;
    }
    parts.len() > 1 && rest == 0
}

/// Writes a block in several chunks, and returns the length of the last.
fn write_parts<W: Write>(
    writer: &mut W,
    previous: u16,
    parts: &[Part],
    bytes: &[u8],
) -> io::Result<u16>
    requires { bytes_in parts.now ≡ length bytes.now }
    ensures image { OnOk result (Appends (W.contents writer.old) (W.contents writer.new) (chunks_of previous 0x80 parts.now bytes.now)) }
    ensures last { IfOk result (λ len. len ≡ last_length previous parts.now) }
{
    let mut before = previous;
    let mut first = 0x80;
    let mut rest = bytes;
    let mut left = parts;
    while let Some((part, after)) = left.split_first() {
        let (content, following) = rest.split_at(part.len as usize);
        let header = header_of(part.len, before, flags_of(first, after));
        write_chunk(writer, header, content)?;
        before = part.len;
        first = 0;
        rest = following;
        left = after;
    }
    Ok(before)
}

/// Byte 4 of a chunk of a block: `first` is X'80' if it is the first.
fn flags_of(first: u8, after: &[Part]) -> u8
    requires { first ≤ 0x80 }
    ensures { result ≡ flags_of first after.now }
{
    if after.is_empty() {
        first + 0x20
    } else {
        first
    }
}

/// The header of a chunk.
fn header_of(len: u16, previous: u16, flags: u8) -> [u8; 6]
    ensures { result ≡ header_of len previous flags }
{
    let [len_low, len_high] = len.to_le_bytes();
    let [previous_low, previous_high] = previous.to_le_bytes();
    [len_low, len_high, previous_low, previous_high, flags, 0]
}

/// Writes the header and the data of a chunk.
fn write_chunk<W: Write>(writer: &mut W, header: [u8; 6], content: &[u8]) -> io::Result<()>
    ensures { OnOk result (Appends (W.contents writer.old) (W.contents writer.new) (header ++ content.now)) }
{
    writer.write_all(&header)?;
    writer.write_all(content)
}
