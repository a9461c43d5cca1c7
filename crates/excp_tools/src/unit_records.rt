//! The units of a script, as their records show them.

use any_device::AnyDevice;
use job_script::{InitialMedium, SetUp, UnitSetup};
use run_record::{MediumCapacity, UnitRecord};
use std::alloc::{AllocError, Global};
use unit_book::UnitBook;

/// The units of a script, with their books in the order of their numbers. Their entries have no one order.
pub fn unit_records<'a>(
    alloc: Global,
    set_up: &'a SetUp,
    books: &'a [UnitBook<AnyDevice>],
) -> Result<Vec<UnitRecord<'a>>, AllocError> {
    let mut records = Vec::with_capacity(alloc, books.len())?;
    for (unit, book) in set_up.units.iter().zip(books) {
        records.push(unit_record(unit, book))?;
    }
    Ok(records)
}

/// A unit of a script, with its book.
fn unit_record<'a>(unit: &'a UnitSetup, book: &'a UnitBook<AnyDevice>) -> UnitRecord<'a> {
    let places: Option<&'a [usize]> = None;
    UnitRecord {
        book,
        faults: &unit.faults,
        room: room_of(&unit.medium),
        places,
    }
}

/// The room of a medium, if its device does not tell it.
fn room_of(medium: &InitialMedium) -> Option<MediumCapacity> {
    match medium {
        InitialMedium::Disk(_, _) => None,
        InitialMedium::Tape(bytes, _) => Some(MediumCapacity::Tape { bytes: *bytes }),
        InitialMedium::Printer { lines, pages } => Some(MediumCapacity::Printer {
            lines: *lines,
            pages: *pages,
        }),
    }
}
