//! The books of two units, requests to them, and what a trace tells of.

ghost use Rattle.std.specs.Prelude.{◌≡◌, ◌<◌, ◌≤◌, true, IfOk};
ghost use Rattle.std.specs.List.{list_all};
ghost use Rattle.unit_book.specs.Trace.{is_opening};
ghost use Rattle.excp_system.specs.Opening.{AreBooks};

use ckd_disk::{Disk, Geometry, InitialRecord};
use device_port::Fault;
use excp_system::{Site, Task};
use io_area::Area;
use io_images::{Extent, SubStatus, UnitStatus};
use request_piece::{Name, Request};
use std::alloc::{AllocError, Global};
use std::sync::Wait;
use unit_book::{Entry, ProcessingMethod, UnitBook};

/// What a test ends with where a call is refused memory once more: a test has one growth refused, so that is a fault of
/// the call.
pub const TWICE: &str = "refused twice";

/// An unrelated IOB at X'1000' for DCB 1, its ECB at X'1028', and from X'1030' on search, transfer back and read of the
/// record whose ID is at X'1050', to X'1060'.
pub const READ_RECORD: [u8; 104] = [
    0x42, 0, 0, 0, 0, 0, 0x10, 0x28, 0, 0, 0, 0, 0, 0, 0, 0, 0, 0, 0x10, 0x30, 0, 0, 0, 1, 0, 0, 0,
    0, 0, 0, 0, 0, 0, 0, 0, 0, 0, 0, 0, 1, 0, 0, 0, 0, 0, 0, 0, 0, 0x31, 0, 0x10, 0x50, 0x40, 0, 0,
    5, 0x08, 0, 0x10, 0x30, 0, 0, 0, 0, 0x06, 0, 0x10, 0x60, 0, 0, 0, 4, 0, 0, 0, 0, 0, 0, 0, 0, 0,
    0, 0, 0, 1, 0, 0, 0, 0, 0, 0, 0, 0, 0, 0, 0, 0, 0, 0, 0, 0, 0, 0, 0,
];

/// What is read of a disk.
const DATA: [u8; 4] = [0xC1, 0xC2, 0xC3, 0xC4];

/// The one track of a disk, for input and output.
pub const TRACK: [u8; 16] = [0x18, 0, 0, 0, 0, 0, 0, 0, 0, 0, 0, 0, 0, 0, 0, 1];

/// A command that fails with a unit check and this sense.
pub fn fault(ordinal: u32, sense: u16) -> Fault {
    Fault {
        ordinal: u64::from(ordinal),
        unit: UnitStatus::new(0x0E),
        sub: SubStatus::new(0),
        sense,
    }
}

/// A disk of one track with one record that meets these faults.
pub fn disk(alloc: Global, faults: &[Fault]) -> Result<Disk, AllocError> {
    let geometry = Geometry {
        cylinders: 1,
        heads: 1,
        track_bytes: 40,
    };
    let records = [InitialRecord {
        cylinder: 0,
        head: 0,
        number: 1,
        key: Vec::new(alloc),
        content: DATA.to_vec(alloc)?,
    }];
    Disk::mount(alloc, geometry, &records, faults).map_err(|_| AllocError)
}

/// The book of a disk that meets these faults, for `capacity` requests, whose DCB 1 is open.
pub fn disk_book(
    alloc: Global,
    faults: &[Fault],
    capacity: usize,
) -> Result<UnitBook<Disk>, AllocError>
    requires some { 1 ≤ capacity }
    requires few { capacity ≤ 65536 }
    ensures { IfOk result (λ book. list_all is_opening book.trace ≡ true) }
{
    let mut book = UnitBook::new(alloc, disk(alloc, faults)?, 5, capacity)?;
    match book.open(ProcessingMethod::Output, &[Extent::read(&TRACK)]) {
        Ok(_) => Ok(book),
        Err(_) => Err(AllocError),
    }
}

/// The books of two disks of one record.
pub fn disks(alloc: Global, capacity: usize) -> Result<Vec<UnitBook<Disk>>, AllocError>
    requires some { 1 ≤ capacity }
    requires few { capacity ≤ 65536 }
    ensures { IfOk result (λ books. AreBooks 2 books.items) }
{
    faulty_disks(alloc, &[], capacity)
}

/// The books of two disks of one record, the first of which meets these faults.
pub fn faulty_disks(
    alloc: Global,
    faults: &[Fault],
    capacity: usize,
) -> Result<Vec<UnitBook<Disk>>, AllocError>
    requires some { 1 ≤ capacity }
    requires few { capacity ≤ 65536 }
    ensures { IfOk result (λ books. AreBooks 2 books.items) }
{
    let mut books = Vec::with_capacity(alloc, 2)?;
    books.push_reserved(disk_book(alloc, faults, capacity)?);
    books.push_reserved(disk_book(alloc, &[], capacity)?);
    Ok(books)
}

/// The task issues its next request to a unit: its name.
pub fn issue<S: Site, R: Wait>(
    rt: &R,
    alloc: Global,
    task: &mut Task<'_, S>,
    unit: u16,
) -> Result<Name, AllocError>
    requires { unit < S.rows.units }
    ensures { task.new.number ≡ task.old.number }
{
    issue_over(rt, alloc, task, unit, &READ_RECORD)
}

/// The task issues its next request to a unit, for DCB 1 and over these bytes from X'1000' on: its name. A full row is an
/// error too.
pub fn issue_over<S: Site, R: Wait>(
    rt: &R,
    alloc: Global,
    task: &mut Task<'_, S>,
    unit: u16,
    image: &[u8],
) -> Result<Name, AllocError>
    requires { unit < S.rows.units }
    ensures { task.new.number ≡ task.old.number }
{
    let name = task.name(unit).ok_or(AllocError)?;
    let area = Area::new(alloc, 0x1000, image).map_err(|_| AllocError)?;
    let request = Request::new(alloc, name, unit, 1, 0x1000, area).map_err(|_| AllocError)?;
    match task.excp(rt, request) {
        Ok(()) => Ok(name),
        Err(_) => Err(AllocError),
    }
}

/// Whether a trace tells of one opening, and of no purge, close or reset.
pub fn is_undisturbed(trace: &[Entry]) -> bool {
    let mut opened: usize = 0;
    for entry in trace {
        match entry {
            Entry::Purge(_, _) | Entry::Close(_) | Entry::Reset(_) => return false,
            Entry::Opened(_, _, _) => opened = opened.saturating_add(1),
            _ => {}
        }
    }
    opened == 1
}
