//! Searches: they compare what a program gives with a record's count area or key area.

ghost use Rattle.std.specs.Prelude.{◌≡◌, ◌≤◌, if◌then◌else◌, length, []};
ghost use Rattle.device_port.specs.Answers.{normal_end, status_modifier};
ghost use Rattle.ckd_disk.specs.Access.{access_of, IsPlaced};
ghost use Rattle.ckd_disk.specs.Commands.{answer_of, matches, search_id, search_key};

use super::check;
use crate::access::{Access, Armed, Orientation};
use crate::track::Track;
use crate::walk::{key_record, next};
use device_port::{Acted, Given, NO_RECORD_FOUND};

/// Whether the first bytes given are those of a field of at most `N` bytes, as far as both go.
#[inline(always)]
fn is_match<const N: usize>(field: &[u8], given: &Given<'_>) -> bool
    requires fits { length field.now ≤ N }
    requires small { N ≤ 255 }
    ensures { result ≡ matches field.now given.now }
{
    match given.first(field.len()) {
        Some(bytes) => field.starts_with(bytes),
        None => is_match_of_parts::<N>(field, given),
    }
}

/// Whether the first bytes given are those of a field of at most `N` bytes, if the bytes lie in many parts of storage.
#[inline(never)]
fn is_match_of_parts<const N: usize>(field: &[u8], given: &Given<'_>) -> bool
    requires fits { length field.now ≤ N }
    requires small { N ≤ 255 }
    ensures { result ≡ matches field.now given.now }
{
    let len = given.len().min(field.len());
    let mut argument = [0; N];
    given.fill(&mut argument[..len]);
    field.starts_with(&argument[..len])
}

/// The end of a search that has compared.
fn end_of_search(equal: bool, want: u32) -> Acted
    ensures { result ≡ (if equal then status_modifier want else normal_end want) }
{
    if equal {
        Acted::status_modifier(want)
    } else {
        Acted::normal_end(want)
    }
}

/// SEARCH ID EQUAL.
#[inline(always)]
pub fn search_id(track: &Track, access: &mut Access, given: &Given<'_>) -> Acted
    requires { IsPlaced access.old track.now }
    ensures answer { answer_of result access.new [] ≡ search_id track.now (access_of access.old) given.now }
    ensures placed { IsPlaced access.new track.now }
{
    let reached = next(track, access.orientation);
    if access.passes >= 2 || access.passes + reached.passed >= 2 {
        return check(access, NO_RECORD_FOUND);
    }
    let equal = is_match::<5>(track.id(reached.spot), given);
    access.orientation = Orientation::Count(reached.spot);
    access.passes += reached.passed;
    access.armed = if equal {
        Armed::Id(reached.spot)
    } else {
        Armed::No
    };
    end_of_search(equal, 5)
}

/// SEARCH KEY EQUAL.
#[inline(never)]
pub fn search_key(track: &Track, access: &mut Access, given: &Given<'_>) -> Acted
    requires { IsPlaced access.old track.now }
    ensures answer { answer_of result access.new [] ≡ search_key track.now (access_of access.old) given.now }
    ensures placed { IsPlaced access.new track.now }
{
    let Some(reached) = key_record(track, access.orientation) else {
        return check(access, NO_RECORD_FOUND);
    };
    if access.passes >= 2 || access.passes + reached.passed >= 2 {
        return check(access, NO_RECORD_FOUND);
    }
    let key = track.key(reached.spot);
    let equal = given.len().min(key.len()) > 0 && is_match::<255>(key, given);
    access.orientation = Orientation::Key(reached.spot);
    access.passes += reached.passed;
    access.armed = if equal {
        Armed::Key(reached.spot)
    } else {
        Armed::No
    };
    end_of_search(equal, key.len() as u32)
}
