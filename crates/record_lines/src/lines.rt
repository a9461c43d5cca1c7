//! The lines of a run, and those of a unit.

use crate::events::write_event;
use crate::media::write_medium;
use crate::posts::{write_posts, write_tasks};
use crate::steps::Steps;
use device_port::Kind;
use run_record::{Run, UnitRecord};
use std::alloc::Global;
use std::io;
use std::io::Write;
use unit_history::{Dcbs, Events, HistoryError};

/// How much of a record is written.
#[derive(Clone, Copy, PartialEq, Eq)]
pub enum RecordDetail {
    /// The posts alone.
    Posts,
    /// All but the commands of channel programs.
    Events,
    /// All, with at most this number of commands of each unit, the first ones.
    Steps(u64),
}

/// Writes a part of the record of a run. The tables take memory, and so do the commands, so it may run out of it after some lines.
pub fn write_run<W: Write>(
    out: &mut W,
    alloc: Global,
    run: &Run<'_>,
    part: RecordDetail,
) -> Result<(), HistoryError> {
    let order = if run.is_ordered() { "run" } else { "units" };
    writeln!(
        out,
        "{{\"what\":\"run\",\"format\":\"excp-record 1\",\"tasks\":{},\"order\":\"{order}\"}}",
        run.tasks.len()
    )?;
    write_posts(out, run.tasks)?;
    if part == RecordDetail::Posts {
        return Ok(());
    }
    write_tasks(out, run.tasks)?;
    for (number, unit) in run.units.iter().enumerate() {
        write_unit(out, alloc, number, unit, part)?;
    }
    Ok(())
}

/// Writes a part of the record of the unit with this number. It has no posts.
pub fn write_unit<W: Write>(
    out: &mut W,
    alloc: Global,
    number: usize,
    unit: &UnitRecord<'_>,
    part: RecordDetail,
) -> Result<(), HistoryError> {
    write_head(out, number, unit)?;
    let mut dcbs = Dcbs::of_units(alloc, std::slice::from_ref(unit.book))?;
    let mut steps = match part {
        RecordDetail::Steps(most) => Some(Steps::of(unit, most)?),
        _ => None,
    };
    for event in Events::of(unit.book, &mut dcbs) {
        write_event(out, unit.place_of(event.entry), &event)?;
        if let Some(steps) = &mut steps {
            steps.write(out, &event.kind)?;
        }
    }
    write_medium(out, unit)?;
    Ok(())
}

/// Writes the line of a unit.
fn write_head<W: Write>(out: &mut W, number: usize, unit: &UnitRecord<'_>) -> io::Result<()> {
    let kind = match unit.kind() {
        Kind::Disk => "disk",
        Kind::Tape => "tape",
        Kind::Printer => "printer",
    };
    writeln!(
        out,
        "{{\"what\":\"unit\",\"unit\":{number},\"kind\":\"{kind}\",\"isc\":{},\"entries\":{}}}",
        unit.book.isc(),
        unit.book.trace().len()
    )
}
