//! Writes on the track.

ghost use Rattle.std.specs.Prelude.{◌≡◌};
ghost use Rattle.ckd_disk.specs.Access.{access_of, IsPlaced};
ghost use Rattle.ckd_disk.specs.Commands.{written_of, write_data, write_key_and_data, write_count_key_and_data};

use super::check;
use crate::access::{Access, Armed, Orientation};
use crate::track::{Track, size_given};
use device_port::{Acted, COMMAND_REJECT, Given, INVALID_TRACK_FORMAT};

/// WRITE DATA.
#[inline(never)]
pub fn write_data(track: &mut Track, access: &mut Access, given: &Given<'_>) -> Acted
    requires { IsPlaced access.old track.old }
    ensures written { written_of result access.new track.new
        ≡ write_data track.old (access_of access.old) given.now }
    ensures placed { IsPlaced access.new track.new }
{
    let (Armed::Id(spot) | Armed::Key(spot)) = access.armed else {
        return check(access, COMMAND_REJECT);
    };
    if access.mask.inhibits_writes() {
        return check(access, COMMAND_REJECT);
    }
    let want = track.content(spot).len() as u32;
    track.set_content(spot, given);
    access.leave(Orientation::End(spot), Armed::No);
    if want == 0 {
        Acted::unit_exception(0)
    } else {
        Acted::normal_end(want)
    }
}

/// WRITE KEY AND DATA.
#[inline(never)]
pub fn write_key_and_data(track: &mut Track, access: &mut Access, given: &Given<'_>) -> Acted
    requires { IsPlaced access.old track.old }
    ensures written { written_of result access.new track.new
        ≡ write_key_and_data track.old (access_of access.old) given.now }
    ensures placed { IsPlaced access.new track.new }
{
    let Armed::Id(spot) = access.armed else {
        return check(access, COMMAND_REJECT);
    };
    if access.mask.inhibits_writes() {
        return check(access, COMMAND_REJECT);
    }
    let want = track.parts(spot).len() as u32;
    track.set_parts(spot, given);
    access.leave(Orientation::End(spot), Armed::No);
    Acted::normal_end(want)
}

/// WRITE COUNT, KEY AND DATA.
#[inline(never)]
pub fn write_count_key_and_data(track: &mut Track, access: &mut Access, given: &Given<'_>) -> Acted
    requires { IsPlaced access.old track.old }
    ensures written { written_of result access.new track.new
        ≡ write_count_key_and_data track.old (access_of access.old) given.now }
    ensures placed { IsPlaced access.new track.new }
{
    let (Armed::Id(spot) | Armed::Key(spot) | Armed::Format(spot)) = access.armed else {
        return check(access, COMMAND_REJECT);
    };
    if access.mask.inhibits_formatting() || given.len() < 8 {
        return check(access, COMMAND_REJECT);
    }
    let want = size_given(given);
    if !track.has_room_behind(spot, want) {
        return check(access, INVALID_TRACK_FORMAT);
    }
    let written = track.put_behind(spot, given);
    access.leave(Orientation::End(written), Armed::Format(written));
    Acted::normal_end(want as u32)
}
