//! The bytes that a command moved, and the first of them.

ghost use Rattle.std.specs.Prelude.{◌≡◌, ◌≤◌, ◌+◌, ◌++◌, length, min, false, MatchOption};
ghost use Rattle.arrayvec.specs.ArrayVec.{array_vec_len};
ghost use Rattle.unit_history.specs.MovedData.{Counts, IsOutside, IsShown, first_moved, is_kept_out, with_later, lies, most_shown, first_of_part, way_of};

use arrayvec::ArrayVec;
use device_port::{Flow, Segment};
use io_area::Area;

/// The most bytes of a command's data that are shown.
const SHOWN: usize = 16;

/// Bytes that are shown.
pub type FirstBytes = ArrayVec<u8, SHOWN>;

/// The bytes that a command moved, and the first of them.
#[derive(Drop)]
pub struct Moved {
    pub count: u32,
    pub way: DataDirection,
    /// Where the first part of its storage begins. A read backward fills it downward.
    pub address: u32,
    pub bytes: Shown,
    /// Whether there are more bytes than the shown ones.
    pub has_more: bool,
}

/// The direction of data.
#[derive(Clone, Copy, PartialEq, Eq)]
pub enum DataDirection {
    /// From storage to the device.
    From,
    /// From the device to storage.
    To,
    /// From the device to storage, from its highest address down.
    DownFrom,
}

/// What is shown of data.
#[derive(Drop)]
pub enum Shown {
    /// The first bytes in storage, in the order of their addresses within a part. They end before the first part that the skip flag
    /// keeps from storage.
    Bytes(FirstBytes),
    /// The skip flag keeps the first part from storage.
    Skipped,
    /// The bytes lie outside the area. A command moves none of these.
    Outside,
}

impl DataDirection {
    /// The direction of a flow.
    pub(crate) fn of(flow: Option<Flow>) -> DataDirection
        ensures { result ≡ way_of flow }
    {
        match flow {
            Some(Flow::Out) => DataDirection::From,
            Some(Flow::Back) => DataDirection::DownFrom,
            _ => DataDirection::To,
        }
    }
}

impl Shown {
    /// What is shown of `count` bytes that moved between a device and these parts of an area.
    pub(crate) fn of(way: DataDirection, area: &Area, parts: &[Segment], count: u32) -> Shown
        ensures { IsShown way area.now (min most_shown count) parts.now result }
    {
        match parts {
            [first, ..] if is_kept_out(way, first) => Shown::Skipped,
            _ => match first_moved(way, area, parts, SHOWN.min(count as usize)) {
                Some(bytes) => Shown::Bytes(bytes),
                None => Shown::Outside,
            },
        }
    }

    /// How many bytes are shown, where `first` is the first part.
    pub(crate) fn count(&self, first: &Segment) -> usize
        ensures { Counts self.now result }
    {
        match self {
            Shown::Bytes(bytes) => bytes.len(),
            Shown::Skipped | Shown::Outside => SHOWN.min(usize::from(first.count)),
        }
    }
}

/// The first `most` bytes of parts, up to the first part that the skip flag keeps from storage. `None` if a part lies outside the
/// area.
fn first_moved(
    way: DataDirection,
    area: &Area,
    parts: &[Segment],
    most: usize,
) -> Option<FirstBytes>
    requires { most ≤ most_shown }
    ensures { MatchOption result (IsOutside way area.now parts.now) (λ bytes. bytes.items ≡ first_moved way area.now most parts.now) }
{
    let mut bytes = ArrayVec::new();
    for part in parts {
        if is_kept_out(way, part) {
            break;
        }
        let count = usize::from(part.count).min(most - bytes.len());
        bytes = with_later(way, &bytes, first_of_part(way, area, part, count)?);
    }
    Some(bytes)
}

/// Whether the skip flag keeps the bytes of a part from storage. It counts for bytes that a device gives (Principles of Operation,
/// chapter 15, "Skipping").
fn is_kept_out(way: DataDirection, part: &Segment) -> bool
    ensures { result ≡ is_kept_out way part.now }
{
    match way {
        DataDirection::From => false,
        DataDirection::To | DataDirection::DownFrom => part.skip,
    }
}

/// The first `count` bytes of a part, in the order of their addresses.
fn first_of_part<'a>(
    way: DataDirection,
    area: &'a Area,
    part: &Segment,
    count: usize,
) -> Option<&'a [u8]>
    requires has { count ≤ part.now.count }
    requires few { count ≤ most_shown }
    ensures { MatchOption result (lies way area.now part.now ≡ false) (λ bytes. (bytes.now ≡ first_of_part way area.now part.now count) × (length bytes.now ≡ count)) }
{
    match way {
        DataDirection::From | DataDirection::To => area.get(part.address, count),
        DataDirection::DownFrom => {
            let Some(below) = count.checked_sub(1) else {
                return Some(&[]);
            };
            area.get(part.address.checked_sub(below as u32)?, count)
        }
    }
}

/// These bytes and those that move after them, in the order of their addresses.
fn with_later(way: DataDirection, bytes: &FirstBytes, after: &[u8]) -> FirstBytes
    requires { array_vec_len bytes.now + length after.now ≤ most_shown }
    ensures bytes { result.items ≡ with_later way bytes.now.items after.now }
    ensures length { array_vec_len result ≡ array_vec_len bytes.now + length after.now }
{
    match way {
        DataDirection::From | DataDirection::To => both(bytes.as_slice(), after),
        DataDirection::DownFrom => both(after, bytes.as_slice()),
    }
}

/// Bytes, and then others.
fn both(first: &[u8], second: &[u8]) -> FirstBytes
    requires { length first.now + length second.now ≤ most_shown }
    ensures bytes { result.items ≡ first.now ++ second.now }
    ensures length { array_vec_len result ≡ length first.now + length second.now }
{
    let mut bytes = ArrayVec::new();
    let (Ok(()), Ok(())) = (
        bytes.try_extend_from_slice(first),
        bytes.try_extend_from_slice(second),
    ) else {
        unreachable!()
    };
    bytes
}
