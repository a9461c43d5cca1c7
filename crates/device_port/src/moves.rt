//! Data moved part by part.

ghost use Rattle.std.specs.Prelude.{◌≡◌, ◌<◌, ◌≤◌, ◌+◌, ◌-◌, ℕ, length, min, reverse, slice_index, take, true};
ghost use Rattle.io_area.specs.Storage.{SamePlace, lies_in, bytes_at};
ghost use Rattle.device_port.specs.Moves.{AllLie, gathered, padded, stored, stored_back, with_bytes_down, written};

use crate::chain::Segment;
use crate::image::put_at;
use crate::kind::Flow;
use io_area::Area;

/// Moves bytes into storage at rising addresses.
pub fn store(segments: &[Segment], area: &mut Area, bytes: &[u8])
    requires { AllLie Flow.Input area.old segments.now }
    ensures place { SamePlace area.old area.new }
    ensures stored { area.new ≡ stored segments.now bytes.now area.old }
{
    let mut rest = bytes;
    for segment in segments {
        let n = rest.len().min(segment.count as usize);
        if !segment.skip {
            area.put(segment.address, &rest[..n]);
        }
        rest = &rest[n..];
    }
}

/// Moves a block into storage at falling addresses, its last byte first.
pub fn store_back(segments: &[Segment], area: &mut Area, block: &[u8])
    requires { AllLie Flow.Back area.old segments.now }
    ensures place { SamePlace area.old area.new }
    ensures stored { area.new ≡ stored_back segments.now (reverse block.now) area.old }
{
    let mut rest = block;
    for segment in segments {
        let n = rest.len().min(segment.count as usize);
        let (front, last) = rest.split_at(rest.len() - n);
        if !segment.skip {
            put_down(area, segment.address, last);
        }
        rest = front;
    }
}

/// Puts bytes at an address and below it, the last one at the address.
fn put_down(area: &mut Area, address: u32, bytes: &[u8])
    requires low { length bytes.now ≤ address + 1 }
    requires lies { lies_in area.old (address + 1 - length bytes.now) (length bytes.now) ≡ true }
    ensures place { SamePlace area.old area.new }
    ensures wrote { area.new ≡ with_bytes_down area.old address (reverse bytes.now) }
{
    if bytes.is_empty() {
        return;
    }
    let below = (bytes.len() - 1) as u32;
    area.put(address - below, bytes);
}

/// Fills `into` with the bytes that go out, and with zeros what they leave.
pub fn gather(segments: &[Segment], area: &Area, into: &mut [u8])
    requires { AllLie Flow.Out area.now segments.now }
    ensures filled { into.new ≡ padded (length into.old) (gathered area.now segments.now) }
    ensures bytes { (i : ℕ) → slice_index into.new i < 256 }
{
    let mut at = 0;
    for segment in segments {
        at = gather_part(area, segment, into, at);
    }
    into[at..].fill(0);
}

/// Puts the bytes of one part at an offset, up to the room that there is, and returns the offset after them.
fn gather_part(area: &Area, segment: &Segment, into: &mut [u8], at: usize) -> usize
    requires within { at ≤ length into.old }
    requires lies { lies_in area.now segment.now.address segment.now.count ≡ true }
    ensures place { result ≡ at + min segment.now.count (length into.old - at) }
    ensures wrote { into.new ≡ written into.old at (take (min segment.now.count (length into.old - at)) (bytes_at area.now segment.now.address segment.now.count)) }
{
    let n = usize::from(segment.count).min(into.len() - at);
    let Some(bytes) = area.get(segment.address, n) else {
        unreachable!()
    };
    put_at(into, at, bytes);
    at + n
}
