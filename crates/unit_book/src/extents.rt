//! The extents of a DCB.

mod refusal;

ghost use Rattle.std.specs.Prelude.{◌≡◌, ◌<◌, ◌^◌, IfOk, slice_get};
ghost use Rattle.std.specs.List.{list_all};
ghost use Rattle.unit_book.specs.Extents.{track, is_inside, counts_tracks, is_extent, takes_extents, lies_within, passes_check};

use device_port::Kind;
use io_images::{Extent, Seek};
pub use refusal::{ExtentRefusal, ExtentsRefusal, extents_refusal};
use std::alloc::{AllocError, Global};
use std::marker::Model;

/// The most extents that a DCB has.
pub const MOST_EXTENTS: usize = 16;

/// The extents of a DCB, in order: extent M of a seek address is the one at place M, from 0.
#[derive(Drop)]
pub struct Extents {
    items: Vec<Extent>,
}

impl Model for Extents {
    ghost use Rattle.std.specs.Prelude.{List};
    ghost use Rattle.io_images.specs.declared.extent.Extent.{Extent};

    ghost Value = { List Extent };

    ghost view = { λ e. e.items.items };
}

impl Extents {
    pub(crate) fn new(alloc: Global, extents: &[Extent]) -> Result<Self, AllocError>
        ensures { IfOk result (λ e. e ≡ extents.now) }
    {
        Ok(Extents {
            items: extents.to_vec(alloc)?,
        })
    }

    /// Copies the extents of a DCB. Fails only if memory runs out.
    pub(crate) fn copy(&self) -> Result<Self, AllocError>
        ensures { IfOk result (λ e. e ≡ self.now) }
    {
        Ok(Extents {
            items: self.items.clone()?,
        })
    }

    /// The extents.
    pub fn as_slice(&self) -> &[Extent]
        ensures { result.now ≡ self.now }
    {
        self.items.as_slice()
    }
}

/// The number of a track.
fn track(heads: u16, cylinder: u16, head: u16) -> u32
    ensures value { result ≡ track heads cylinder head }
    ensures bound { result < 2 ^ 32 }
{
    u32::from(cylinder) * u32::from(heads) + u32::from(head)
}

/// Whether both ends of an extent lie inside the geometry.
fn is_inside(cylinders: u16, heads: u16, extent: &Extent) -> bool
    ensures { result ≡ is_inside cylinders heads extent.now }
{
    extent.start_cylinder < cylinders
        && extent.start_head < heads
        && extent.end_cylinder < cylinders
        && extent.end_head < heads
}

/// Whether the number of tracks of an extent is that of its ends.
fn counts_tracks(heads: u16, extent: &Extent) -> bool
    ensures { result ≡ counts_tracks heads extent.now }
{
    let first = track(heads, extent.start_cylinder, extent.start_head);
    let last = track(heads, extent.end_cylinder, extent.end_head);
    first <= last && u64::from(extent.tracks) == u64::from(last - first) + 1
}

/// Whether an extent is one of a disk.
fn is_extent(cylinders: u16, heads: u16, extent: &Extent) -> bool
    ensures { result ≡ is_extent cylinders heads extent.now }
{
    is_inside(cylinders, heads, extent) && counts_tracks(heads, extent)
}

fn are_extents(cylinders: u16, heads: u16, extents: &[Extent]) -> bool
    ensures { result ≡ list_all (is_extent cylinders heads) extents.now }
{
    extents
        .iter()
        .all(|extent| is_extent(cylinders, heads, extent))
}

/// Whether a DCB of a device may be opened with these extents.
pub(crate) fn takes_extents(kind: Kind, cylinders: u16, heads: u16, extents: &[Extent]) -> bool
    ensures { result ≡ takes_extents kind cylinders heads extents.now }
{
    match kind {
        Kind::Disk => {
            1 <= extents.len()
                && extents.len() <= MOST_EXTENTS
                && are_extents(cylinders, heads, extents)
        }
        Kind::Tape | Kind::Printer => extents.is_empty(),
    }
}

/// Whether the track of a seek address lies in an extent.
fn lies_within(heads: u16, seek: &Seek, extent: &Extent) -> bool
    ensures { result ≡ lies_within heads seek.now (Some extent.now) }
{
    let track_sought = track(heads, seek.cylinder, seek.head);
    track(heads, extent.start_cylinder, extent.start_head) <= track_sought
        && track_sought <= track(heads, extent.end_cylinder, extent.end_head)
}

/// Whether a seek address passes the extent check of a first start (DFSMSdfp Advanced Services, "Data Extent Block
/// Fields"; what is done with one that does not is the profile's).
pub fn passes_check(kind: Kind, heads: u16, extents: &[Extent], seek: &Seek) -> bool
    ensures { result ≡ passes_check kind heads extents.now seek.now }
{
    match kind {
        Kind::Disk => {
            seek.bin == 0
                && seek.head < heads
                && match extents.get(usize::from(seek.extent)) {
                    Some(extent) => lies_within(heads, seek, extent),
                    None => false,
                }
        }
        Kind::Tape | Kind::Printer => true,
    }
}
