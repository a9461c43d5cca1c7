//! What is wrong with extents that a device does not take.

ghost use Rattle.std.specs.Prelude.{◌≡◌, IfNone, IfSome, false, true};
ghost use Rattle.unit_book.specs.Extents.{takes_extents};

use super::{MOST_EXTENTS, counts_tracks, is_inside, takes_extents, track};
use device_port::Kind;
use io_images::Extent;

/// What is wrong with the extents of a DCB that is not opened for them.
#[derive(Clone, Copy)]
pub enum ExtentsRefusal {
    /// A DCB of a tape or a printer has extents.
    NotOfDisk,
    /// One of a disk has none, or more than 16.
    Count,
    /// The extent at this place, from 0, is none of the disk.
    Extent(usize, Extent, ExtentRefusal),
}

/// What is wrong with an extent of a disk.
#[derive(Clone, Copy)]
pub enum ExtentRefusal {
    /// An end of it is not inside the disk.
    Outside,
    /// Its end lies before its start.
    Reversed,
    /// It has this many tracks from its start to its end, and says another number.
    Tracks(u64),
}

/// Returns what is wrong with the extents of a DCB, if a device with these cylinders and heads does not take them.
pub fn extents_refusal(
    kind: Kind,
    cylinders: u16,
    heads: u16,
    extents: &[Extent],
) -> Option<ExtentsRefusal>
    ensures none { IfNone result (takes_extents kind cylinders heads extents.now ≡ true) }
    ensures some { IfSome result (λ r. takes_extents kind cylinders heads extents.now ≡ false) }
{
    if takes_extents(kind, cylinders, heads, extents) {
        return None;
    }
    match kind {
        Kind::Disk => Some(on_disk(cylinders, heads, extents)),
        Kind::Tape | Kind::Printer => Some(ExtentsRefusal::NotOfDisk),
    }
}

/// Returns what is wrong with the extents of a disk's DCB: their number, or else the first extent that is outside the disk.
fn on_disk(cylinders: u16, heads: u16, extents: &[Extent]) -> ExtentsRefusal {
    if extents.len() > MOST_EXTENTS {
        return ExtentsRefusal::Count;
    }
    for (place, extent) in extents.iter().enumerate() {
        if !is_inside(cylinders, heads, extent) {
            return ExtentsRefusal::Extent(place, *extent, ExtentRefusal::Outside);
        }
        if !counts_tracks(heads, extent) {
            return ExtentsRefusal::Extent(place, *extent, miscounted(heads, extent));
        }
    }
    ExtentsRefusal::Count
}

/// How the number of tracks of an extent is not that of its ends.
fn miscounted(heads: u16, extent: &Extent) -> ExtentRefusal {
    let first = track(heads, extent.start_cylinder, extent.start_head);
    let last = track(heads, extent.end_cylinder, extent.end_head);
    if last < first {
        return ExtentRefusal::Reversed;
    }
    ExtentRefusal::Tracks(u64::from(last - first) + 1)
}
