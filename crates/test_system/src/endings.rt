//! Runs over two disks that are brought to their end.

ghost use Rattle.std.specs.Prelude.{◌<◌};
ghost use Rattle.post_ledger.specs.Report.{IsFor};

use crate::fixtures::{disks, issue};
use ckd_disk::Disk;
use device_port::Device;
use excp_system::{Opened, Rows, Site, System, Task};
use io_images::Code;
use post_ledger::{Cause, Report, Unfinished, Units, finish};
use std::alloc::{AllocError, Global};
use std::marker::Brand;
use std::process::Abort;
use std::sync::Wait;
use std::test::Fail;
use unit_book::UnitBook;

mod mixed;
mod under_way;

/// What a report lists for task 0 of a unit: each request's number, how it ended, and the first of the data that it
/// read.
pub fn listed<D: Device>(
    alloc: Global,
    report: &Report<D>,
    unit: u16,
) -> Result<Vec<(u32, Code, u8)>, AllocError>
    requires report { IsFor 2 1 report.now }
    requires unit { unit < 2 }
{
    let mut posts = Vec::new(alloc);
    for value in report.posts(0, unit) {
        let read = value.area().get(0x1060, 1).unwrap_or(&[0]);
        posts.push((value.name().seq, value.code(), read[0]))?;
    }
    Ok(posts)
}
