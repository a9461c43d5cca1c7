//! Why a mount, an open or an issue is refused, in words.

use ckd_disk::{Geometry, GeometryRefusal, InitialRecord, RecordRefusal};
use device_port::{Fault, is_script};
use line_printer::{PaperRefusal, paper_refusal};
use request_piece::{Misplaced, RequestRefusal};
use tape_unit::InitialItem;
use thiserror::Error;
use unit_book::{ExtentRefusal, ExtentsRefusal};

/// Why a mount, an open or an issue is refused (profile). Places count from 0, in the order in which pieces were put.
#[derive(Clone, Copy, PartialEq, Eq, Debug, Error)]
pub enum Reason {
    #[error("records of a disk were put, or items of a tape, which the device does not take")]
    OtherPieces,
    #[error("fault {0} has no command after that of the fault before it: commands count from 1 and rise")]
    FaultOrder(usize),
    #[error("fault {0} has another status than a device shows: unit status 0E, or channel status 08, 04 or 02 without sense")]
    FaultStatus(usize),
    #[error("a disk has at least 1 cylinder")]
    Cylinders,
    #[error("a cylinder has at least 1 head")]
    Heads,
    #[error("a disk has at most 65,535 tracks")]
    Tracks,
    #[error("a track has 16 to 65,535 bytes, not {0}")]
    TrackBytes(u64),
    #[error("a disk has at most 16,777,216 bytes")]
    DiskBytes,
    #[error("record {0}: its cylinder is {1}, and the disk has {2}")]
    Cylinder(usize, u16, u64),
    #[error("record {0}: its head is {1}, and a cylinder has {2}")]
    Head(usize, u16, u64),
    #[error("record {0}: its number is 0, which only R0 has")]
    Number(usize),
    #[error("record {0}: a key has at most 255 bytes, not {1}")]
    Key(usize, usize),
    #[error("record {0}: data have at most 65,535 bytes, not {1}")]
    Content(usize, usize),
    #[error("record {0} does not fit its track, whose records take {1} bytes of {2}")]
    TrackFull(usize, u64, u64),
    #[error("a tape has 4 to 16,777,216 bytes, not {0}")]
    TapeBytes(u64),
    #[error("a tape has at most 4,294,967,296 bytes, not {0}")]
    ReelBytes(u64),
    #[error("item {0}: a block has 1 to 65,535 bytes, not {1}")]
    Block(usize, usize),
    #[error("item {0} does not fit the tape, whose items take {1} bytes of {2}")]
    TapeFull(usize, u64, u64),
    #[error("a printer has 1 to 100,000 lines, not {0}")]
    Lines(u64),
    #[error("a printer has 1 to 10,000 pages, not {0}")]
    Pages(u64),
    #[error("extents have 16 bytes each, and these have {0} in all")]
    ExtentBytes(usize),
    #[error("a DCB of a tape or a printer has no extents")]
    NotOfDisk,
    #[error("a DCB of a disk has 1 to 16 extents, not {0}")]
    ExtentCount(usize),
    #[error("extent {0}: an end of it is not on the disk (cylinders: {1}, heads: {2})")]
    ExtentOutside(usize, u16, u16),
    #[error("extent {0}: its end lies before its start")]
    ExtentReversed(usize),
    #[error("extent {0}: it says {1} tracks, and has {2}")]
    ExtentTracks(usize, u16, u64),
    #[error("the base {0:06X} of the storage is not a multiple of 8")]
    Base(u32),
    #[error("storage has at most 8,192 bytes, not {0}")]
    StorageBytes(usize),
    #[error("the storage at {0:06X} ends past 2^24")]
    StorageEnd(u32),
    #[error("the IOB at {0:06X} is not on a fullword boundary")]
    IobBoundary(u32),
    #[error("the IOB at {0:06X} does not lie in the storage at {1:06X}")]
    IobOutside(u32, u32),
    #[error("the ECB at {0:06X} is not on a fullword boundary")]
    EcbBoundary(u32),
    #[error("the ECB at {0:06X} does not lie in the storage at {1:06X}")]
    EcbOutside(u32, u32),
    #[error("the ECB at {0:06X} overlaps the IOB")]
    EcbOverIob(u32),
    #[error("the channel program at {0:06X} is not on a doubleword boundary")]
    ProgramBoundary(u32),
    #[error("the channel program at {0:06X} does not lie in the storage at {1:06X}")]
    ProgramOutside(u32, u32),
    #[error("the IOB names DCB {0}, and the call DCB {1}")]
    OtherDcb(u32, u16),
}

/// The first fault that no device meets after those before it.
pub(crate) fn of_faults(faults: &[Fault]) -> Option<Reason> {
    let mut last = 0;
    for (place, fault) in faults.iter().enumerate() {
        if fault.ordinal <= last {
            return Some(Reason::FaultOrder(place));
        }
        if !is_script(&[*fault]) {
            return Some(Reason::FaultStatus(place));
        }
        last = fault.ordinal;
    }
    None
}

/// Why no disk has this size.
pub(crate) fn of_geometry(geometry: Geometry) -> Option<Reason> {
    Some(match geometry.refusal()? {
        GeometryRefusal::Cylinders => Reason::Cylinders,
        GeometryRefusal::Heads => Reason::Heads,
        GeometryRefusal::Tracks => Reason::Tracks,
        GeometryRefusal::TrackBytes => Reason::TrackBytes(geometry.track_bytes),
        GeometryRefusal::Bytes => Reason::DiskBytes,
    })
}

/// The first record that no track of a disk of this size holds, whatever else is there.
pub(crate) fn of_records(geometry: Geometry, records: &[InitialRecord]) -> Option<Reason> {
    for (place, record) in records.iter().enumerate() {
        if let Some(refusal) = record.refusal(geometry) {
            return Some(of_record(place, geometry, record, refusal));
        }
    }
    None
}

/// Why no track holds the record at a place.
fn of_record(
    place: usize,
    geometry: Geometry,
    record: &InitialRecord,
    refusal: RecordRefusal,
) -> Reason {
    match refusal {
        RecordRefusal::Cylinder => Reason::Cylinder(place, record.cylinder, geometry.cylinders),
        RecordRefusal::Head => Reason::Head(place, record.head, geometry.heads),
        RecordRefusal::Number => Reason::Number(place),
        RecordRefusal::Key => Reason::Key(place, record.key.len()),
        RecordRefusal::Content => Reason::Content(place, record.content.len()),
    }
}

/// The first item that is none of a tape.
pub(crate) fn of_items(items: &[InitialItem]) -> Option<Reason> {
    for (place, item) in items.iter().enumerate() {
        if let Some(len) = item.refused_len() {
            return Some(Reason::Block(place, len));
        }
    }
    None
}

/// Why no printer has this number of lines and pages.
pub(crate) fn of_paper(lines: u64, pages: u64) -> Option<Reason> {
    Some(match paper_refusal(lines, pages)? {
        PaperRefusal::Lines => Reason::Lines(lines),
        PaperRefusal::Pages => Reason::Pages(pages),
    })
}

/// Why a device with these cylinders and heads does not take this number of extents.
pub(crate) fn of_extents(
    refusal: ExtentsRefusal,
    count: usize,
    cylinders: u16,
    heads: u16,
) -> Reason {
    match refusal {
        ExtentsRefusal::NotOfDisk => Reason::NotOfDisk,
        ExtentsRefusal::Count => Reason::ExtentCount(count),
        ExtentsRefusal::Extent(place, extent, why) => match why {
            ExtentRefusal::Outside => Reason::ExtentOutside(place, cylinders, heads),
            ExtentRefusal::Reversed => Reason::ExtentReversed(place),
            ExtentRefusal::Tracks(has) => Reason::ExtentTracks(place, extent.tracks, has),
        },
    }
}

/// Why storage at a base, with an IOB at this address, holds no request of a DCB.
pub(crate) fn of_request(refusal: RequestRefusal, dcb: u16, iob: u32, base: u32) -> Reason {
    match refusal {
        RequestRefusal::Iob(Misplaced::Unaligned) => Reason::IobBoundary(iob),
        RequestRefusal::Iob(_) => Reason::IobOutside(iob, base),
        RequestRefusal::Ecb(at, Misplaced::Unaligned) => Reason::EcbBoundary(at),
        RequestRefusal::Ecb(at, Misplaced::Outside) => Reason::EcbOutside(at, base),
        RequestRefusal::Ecb(at, Misplaced::OverIob) => Reason::EcbOverIob(at),
        RequestRefusal::Program(at, Misplaced::Unaligned) => Reason::ProgramBoundary(at),
        RequestRefusal::Program(at, _) => Reason::ProgramOutside(at, base),
        RequestRefusal::OtherDcb(named) => Reason::OtherDcb(named, dcb),
    }
}
