//! A run, as its record shows it.

use crate::task_record::TaskRecord;
use any_device::AnyDevice;
use device_port::{Device, Fault, Kind};
use unit_book::UnitBook;

/// A run that has ended.
#[derive(Clone, Copy)]
pub struct Run<'a> {
    /// The tasks, by their numbers.
    pub tasks: &'a [TaskRecord],
    /// The units, by their numbers.
    pub units: &'a [UnitRecord<'a>],
}

impl<'a> Run<'a> {
    /// Whether the entries of all units have one order.
    pub fn is_ordered(&self) -> bool {
        self.units.iter().all(|unit| unit.places.is_some())
    }
}

/// What is known of a unit after a run.
#[derive(Clone, Copy)]
pub struct UnitRecord<'a> {
    pub book: &'a UnitBook<AnyDevice>,
    /// The faults that its device was to meet.
    pub faults: &'a [Fault],
    /// The capacity of its medium, if it is known and its device does not report it.
    pub room: Option<MediumCapacity>,
    /// The position of each entry in the one order of the entries of all units, if the run has one. An entry from before its
    /// first event has the position 0.
    pub places: Option<&'a [usize]>,
}

impl<'a> UnitRecord<'a> {
    /// The kind of its device.
    pub fn kind(&self) -> Kind {
        self.book.mounted().kind()
    }

    /// The position of its entry with this number in the order of all units, if there is one.
    pub fn place_of(&self, entry: usize) -> Option<usize> {
        self.places?.get(entry.checked_sub(1)?).copied()
    }
}

/// The capacity of a medium.
#[derive(Clone, Copy)]
pub enum MediumCapacity {
    Tape { bytes: u64 },
    Printer { lines: u64, pages: u64 },
}
