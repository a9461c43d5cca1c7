//! Whole cycles of a site: a request is issued, taken, started, run, interrupted, delivered and collected.

use crate::cycles::{EXTENT, IMAGE};
use ckd_disk::Geometry;
use excp_site::{Refusal, Room, Site, extents};
use std::alloc::Global;
use unit_book::{ProcessingMethod, UnitStep};

/// A site with one task, and a unit with the disk and the DCB of a cycle of a book.
pub fn site(alloc: Global) -> Result<Site, Refusal> {
    let mut site = Site::new(alloc, 1, 1)?;
    site.put_record(0, 0, 1, &[], &[0xC1; 4])?;
    let geometry = Geometry {
        cylinders: 1,
        heads: 1,
        track_bytes: 28,
    };
    let room = Room {
        in_flight: 1,
        held: 1,
    };
    let unit = site.mount_disk(geometry, room)?;
    site.open(unit, ProcessingMethod::Output, &extents(alloc, &EXTENT)?)?;
    Ok(site)
}

/// Does `count` cycles of unit 0.
pub fn cycles(site: &mut Site, count: u32) -> Result<u64, Refusal> {
    for _ in 0..count {
        cycle(site)?;
    }
    Ok(u64::from(count))
}

/// The cycle of the next request.
fn cycle(site: &mut Site) -> Result<(), Refusal> {
    site.issue(0, 0, 1, 0x1000, 0x1000, &IMAGE)?;
    site.take(0)?;
    site.step(0, UnitStep::Start)?;
    site.step(0, UnitStep::Run(u32::MAX))?;
    site.step(0, UnitStep::Interrupt)?;
    site.deliver(0)?;
    site.next_post(0)?;
    Ok(())
}
