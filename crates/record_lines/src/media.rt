//! The lines of a medium, and of its records, items or printed lines.

use crate::form::{OrNull, write_member};
use any_device::AnyDevice;
use ckd_disk::{Disk, StoredRecord};
use device_port::Device;
use line_printer::{PrintedLine, Printer};
use run_record::{MediumCapacity, UnitRecord};
use std::io;
use std::io::Write;
use tape_unit::Tape;

/// A track, by its cylinder and its head.
#[derive(Clone, Copy)]
struct TrackAddress {
    cylinder: u16,
    head: u16,
}

impl TrackAddress {
    /// Whether a record is the R0 that mounting puts on it.
    fn has_mounted(self, record: &StoredRecord<'_>) -> bool {
        let [cylinder_high, cylinder_low] = self.cylinder.to_be_bytes();
        let [head_high, head_low] = self.head.to_be_bytes();
        record.id() == [cylinder_high, cylinder_low, head_high, head_low, 0].as_slice()
            && record.key().is_empty()
            && record.content() == [0; 8].as_slice()
    }
}

/// Writes the medium of a unit as it is at the end of a run.
pub(crate) fn write_medium<W: Write>(out: &mut W, unit: &UnitRecord<'_>) -> io::Result<()> {
    match unit.book.device() {
        AnyDevice::Disk(disk) => write_disk(out, disk),
        AnyDevice::Tape(tape) => write_tape(out, tape, unit.room),
        AnyDevice::Printer(printer) => write_printer(out, printer, unit.room),
    }
}

/// Writes a disk: its size, and its records but the R0 that mounting puts on each track.
fn write_disk<W: Write>(out: &mut W, disk: &Disk) -> io::Result<()> {
    let (cylinders, heads) = (disk.cylinders(), disk.heads());
    // each track has the length of the first
    let bytes = if disk.tracks() == 0 {
        0
    } else {
        disk.track_bytes(0)
    };
    writeln!(
        out,
        "{{\"what\":\"medium\",\"cylinders\":{cylinders},\"heads\":{heads},\"bytes\":{bytes}}}"
    )?;
    for cylinder in 0..cylinders {
        write_cylinder(out, disk, cylinder)?;
    }
    Ok(())
}

fn write_cylinder<W: Write>(out: &mut W, disk: &Disk, cylinder: u16) -> io::Result<()> {
    for head in 0..disk.heads() {
        write_track(out, disk, TrackAddress { cylinder, head })?;
    }
    Ok(())
}

fn write_track<W: Write>(out: &mut W, disk: &Disk, track: TrackAddress) -> io::Result<()> {
    let mut nth: usize = 0;
    for record in disk.records(track.cylinder, track.head) {
        if nth > 0 || !track.has_mounted(&record) {
            write_record(out, track, nth, &record)?;
        }
        nth = nth.saturating_add(1);
    }
    Ok(())
}

/// Writes a record, and its position on its track.
fn write_record<W: Write>(
    out: &mut W,
    track: TrackAddress,
    nth: usize,
    record: &StoredRecord<'_>,
) -> io::Result<()> {
    let TrackAddress { cylinder, head } = track;
    write!(
        out,
        "{{\"what\":\"record\",\"cylinder\":{cylinder},\"head\":{head},\"nth\":{nth}"
    )?;
    write_member(out, "id", Some(record.id()))?;
    write_member(out, "key", Some(record.key()))?;
    write_member(out, "data", Some(record.content()))?;
    out.write_all(b"}\n")
}

/// Writes a tape: its size, how many items it has, after how many of them it is, and its items.
fn write_tape<W: Write>(out: &mut W, tape: &Tape, room: Option<MediumCapacity>) -> io::Result<()> {
    let bytes = match room {
        Some(MediumCapacity::Tape { bytes }) => Some(bytes),
        _ => None,
    };
    writeln!(
        out,
        "{{\"what\":\"medium\",\"bytes\":{},\"count\":{},\"place\":{}}}",
        OrNull(bytes),
        tape.len(),
        tape.place()
    )?;
    for item in tape.items() {
        write_item(out, item.block())?;
    }
    Ok(())
}

/// Writes an item: of a block its bytes, and null for a tape mark.
fn write_item<W: Write>(out: &mut W, block: Option<&[u8]>) -> io::Result<()> {
    out.write_all(b"{\"what\":\"item\"")?;
    write_member(out, "block", block)?;
    out.write_all(b"}\n")
}

/// Writes a printer: its size, where its paper is, and its lines.
fn write_printer<W: Write>(
    out: &mut W,
    printer: &Printer,
    room: Option<MediumCapacity>,
) -> io::Result<()> {
    let (lines, pages) = match room {
        Some(MediumCapacity::Printer { lines, pages }) => (Some(lines), Some(pages)),
        _ => (None, None),
    };
    let at = printer.position();
    writeln!(
        out,
        "{{\"what\":\"medium\",\"lines\":{},\"pages\":{},\"page\":{},\"line\":{}}}",
        OrNull(lines),
        OrNull(pages),
        at.page,
        at.line
    )?;
    for line in printer.printed() {
        write_line(out, line)?;
    }
    Ok(())
}

/// Writes a printed line: where it is, and its bytes.
fn write_line<W: Write>(out: &mut W, line: &PrintedLine) -> io::Result<()> {
    let at = line.position();
    write!(
        out,
        "{{\"what\":\"line\",\"page\":{},\"line\":{}",
        at.page, at.line
    )?;
    write_member(out, "bytes", Some(line.bytes()))?;
    out.write_all(b"}\n")
}
