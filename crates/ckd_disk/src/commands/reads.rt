//! Reads: they give a part of the medium to the program.

ghost use Rattle.std.specs.Prelude.{◌≡◌, ◌≤◌, ◌<◌, ◌^◌, ◌++◌, length, []};
ghost use Rattle.ckd_disk.specs.Track.{IsSpot, record_of};
ghost use Rattle.ckd_disk.specs.Access.{access_of, IsPlaced};
ghost use Rattle.ckd_disk.specs.Commands.{answer_of, checked, part_read, sense, read_count, read_data, read_key_and_data, read_count_key_and_data};

use super::check;
use crate::access::{Access, Armed, Orientation};
use crate::track::{Spot, Track};
use crate::walk::{content_record, key_record, next_record};
use device_port::{Acted, NO_RECORD_FOUND, SENSE_BYTES};

/// What a read answers, and the bytes that it gives.
#[derive(Drop)]
pub struct ReadResult<'a> {
    pub acted: Acted,
    pub bytes: &'a [u8],
}

/// SENSE: two bytes of zeros, since the sense comes with the status.
pub fn sense(access: &mut Access) -> ReadResult<'static>
    ensures answer { answer_of result.acted access.new result.bytes.now ≡ sense (access_of access.old) }
    ensures access { access.new ≡ record access.old { passes = 0; armed = Armed.No } }
{
    let orientation = access.orientation;
    access.leave(orientation, Armed::No);
    ReadResult {
        acted: Acted::sense(),
        bytes: &SENSE_BYTES,
    }
}

/// A read that finds no record.
fn not_found<'a>(access: &mut Access) -> ReadResult<'a>
    ensures answer { answer_of result.acted access.new result.bytes.now
        ≡ checked NO_RECORD_FOUND (access_of access.old) }
    ensures access { access.new ≡ record access.old { passes = 0; armed = Armed.No } }
{
    ReadResult {
        acted: check(access, NO_RECORD_FOUND),
        bytes: &[],
    }
}

/// The end of a read of bytes up to the end of a record.
fn end_of_read<'a>(
    track: &Track,
    access: &mut Access,
    spot: Spot,
    bytes: &'a [u8],
) -> ReadResult<'a>
    requires spot { IsSpot track.now.records spot }
    requires short { length bytes.now < 2 ^ 17 }
    ensures answer { answer_of result.acted access.new result.bytes.now
        ≡ part_read (access_of access.old) spot.place (record_of track.now.records spot.place) bytes.now }
    ensures access { access.new
        ≡ record { mask = access.old.mask; orientation = Orientation.End spot; passes = 0; armed = Armed.No } }
{
    access.leave(Orientation::End(spot), Armed::No);
    let want = bytes.len() as u32;
    let acted = if track.content(spot).is_empty() {
        Acted::unit_exception(want)
    } else {
        Acted::normal_end(want)
    };
    ReadResult { acted, bytes }
}

/// READ COUNT.
pub fn read_count<'a>(track: &'a Track, access: &mut Access) -> ReadResult<'a>
    requires { IsPlaced access.old track.now }
    ensures answer { answer_of result.acted access.new result.bytes.now
        ≡ read_count track.now (access_of access.old) }
    ensures placed { IsPlaced access.new track.now }
{
    let Some(reached) = next_record(track, access.orientation) else {
        return not_found(access);
    };
    access.leave(Orientation::Count(reached.spot), Armed::No);
    let bytes = track.count_area(reached.spot);
    ReadResult {
        acted: Acted::normal_end(bytes.len() as u32),
        bytes,
    }
}

/// READ DATA.
pub fn read_data<'a>(track: &'a Track, access: &mut Access) -> ReadResult<'a>
    requires { IsPlaced access.old track.now }
    ensures answer { answer_of result.acted access.new result.bytes.now
        ≡ read_data track.now (access_of access.old) }
    ensures placed { IsPlaced access.new track.now }
{
    let Some(reached) = content_record(track, access.orientation) else {
        return not_found(access);
    };
    end_of_read(track, access, reached.spot, track.content(reached.spot))
}

/// READ KEY AND DATA.
pub fn read_key_and_data<'a>(track: &'a Track, access: &mut Access) -> ReadResult<'a>
    requires { IsPlaced access.old track.now }
    ensures answer { answer_of result.acted access.new result.bytes.now
        ≡ read_key_and_data track.now (access_of access.old) }
    ensures placed { IsPlaced access.new track.now }
{
    let Some(reached) = key_record(track, access.orientation) else {
        return not_found(access);
    };
    end_of_read(track, access, reached.spot, track.parts(reached.spot))
}

/// READ COUNT, KEY AND DATA.
pub fn read_count_key_and_data<'a>(track: &'a Track, access: &mut Access) -> ReadResult<'a>
    requires { IsPlaced access.old track.now }
    ensures answer { answer_of result.acted access.new result.bytes.now
        ≡ read_count_key_and_data track.now (access_of access.old) }
    ensures placed { IsPlaced access.new track.now }
{
    let Some(reached) = next_record(track, access.orientation) else {
        return not_found(access);
    };
    end_of_read(track, access, reached.spot, track.stored(reached.spot))
}
