//! What the medium of the next unit has, put together piece by piece.

ghost use Rattle.excp_site.specs.Media.{IsEmpty};

use ckd_disk::InitialRecord;
use device_port::Fault;
use std::alloc::Global;
use tape_unit::InitialItem;

/// Records of a disk, items of a tape, and the faults that the device is to meet, each in the order in which they were put.
#[derive(Drop)]
pub struct Medium {
    pub records: Vec<InitialRecord>,
    pub items: Vec<InitialItem>,
    pub faults: Vec<Fault>,
}

impl Medium {
    /// Nothing yet.
    pub fn new(alloc: Global) -> Self
        ensures { IsEmpty result }
    {
        Medium {
            records: Vec::new(alloc),
            items: Vec::new(alloc),
            faults: Vec::new(alloc),
        }
    }
}
