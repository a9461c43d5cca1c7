//! Which record comes under the heads next.

ghost use Rattle.std.specs.Prelude.{◌≡◌, ℕ, ◌<◌, length, IfSome, option_map};
ghost use Rattle.ckd_disk.specs.Track.{IsSpot};
ghost use Rattle.ckd_disk.specs.Access.{IsOriented, orientation_of};
ghost use Rattle.ckd_disk.specs.Walk.{reached_of, next, next_record, key_record, content_record};

use crate::access::Orientation;
use crate::track::{Spot, Track};

/// The record at which a walk ends, and the number of index points that it passes.
#[derive(Clone, Copy, Debug, PartialEq, Eq)]
pub struct Reached {
    pub spot: Spot,
    pub passed: u8,
}

impl Reached {
    /// A record that is reached before the index point.
    fn here(spot: Spot) -> Self
        ensures { result ≡ record { spot = spot; passed = 0 } }
    {
        Reached { spot, passed: 0 }
    }
}

/// The next record, R0 included.
pub fn next(track: &Track, orientation: Orientation) -> Reached
    requires some { 0 < length track.now.records }
    requires oriented { IsOriented orientation track.now.records }
    ensures reached { reached_of result ≡ next (orientation_of orientation) (length track.now.records) }
    ensures spot { IsSpot track.now.records result.spot }
{
    match orientation {
        Orientation::Index => Reached::here(track.first()),
        Orientation::Count(spot) | Orientation::Key(spot) | Orientation::End(spot) => {
            match track.behind(spot) {
                Some(next) => Reached::here(next),
                None => Reached {
                    spot: track.first(),
                    passed: 1,
                },
            }
        }
    }
}

/// The next record, R0 excluded.
pub fn next_record(track: &Track, orientation: Orientation) -> Option<Reached>
    requires some { 0 < length track.now.records }
    requires oriented { IsOriented orientation track.now.records }
    ensures reached { option_map reached_of result
        ≡ next_record (orientation_of orientation) (length track.now.records) }
    ensures spot { IfSome result (λ r. IsSpot track.now.records r.spot) }
{
    let reached = next(track, orientation);
    if reached.spot.place > 0 {
        return Some(reached);
    }
    track.behind(reached.spot).map(|spot| Reached {
        spot,
        passed: reached.passed,
    })
}

/// Where a key area is taken.
pub fn key_record(track: &Track, orientation: Orientation) -> Option<Reached>
    requires some { 0 < length track.now.records }
    requires oriented { IsOriented orientation track.now.records }
    ensures reached { option_map reached_of result
        ≡ key_record (orientation_of orientation) (length track.now.records) }
    ensures spot { IfSome result (λ r. IsSpot track.now.records r.spot) }
{
    match orientation {
        Orientation::Count(spot) => Some(Reached::here(spot)),
        Orientation::Index | Orientation::Key(_) | Orientation::End(_) => next_record(
            track,
            orientation,
        ),
    }
}

/// Where a data area is taken.
pub fn content_record(track: &Track, orientation: Orientation) -> Option<Reached>
    requires some { 0 < length track.now.records }
    requires oriented { IsOriented orientation track.now.records }
    ensures reached { option_map reached_of result
        ≡ content_record (orientation_of orientation) (length track.now.records) }
    ensures spot { IfSome result (λ r. IsSpot track.now.records r.spot) }
{
    match orientation {
        Orientation::Count(spot) | Orientation::Key(spot) => Some(Reached::here(spot)),
        Orientation::Index | Orientation::End(_) => next_record(track, orientation),
    }
}
