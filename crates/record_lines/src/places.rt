//! Where on its medium a command was.

use crate::form::{write_hex, write_member};
use std::io;
use std::io::Write;
use unit_history::{MediumPosition, Passed, RecordPlace};

/// The most records of a track that are listed where a search found none.
const MOST_PASSED: usize = 64;

/// Writes the member of the position of a command.
pub(crate) fn write_place<W: Write>(out: &mut W, place: &MediumPosition<'_>) -> io::Result<()> {
    out.write_all(b",\"place\":{")?;
    match place {
        MediumPosition::Record(record) => write_record_place(out, record)?,
        MediumPosition::NoRecord(passed) => write_passed(out, passed)?,
        MediumPosition::Item(number) => write!(out, "\"item\":{number}")?,
        MediumPosition::Line(at) => write!(out, "\"page\":{},\"line\":{}", at.page, at.line)?,
    }
    out.write_all(b"}")
}

/// Writes a record: its track, its number, its CCHHR if that is not of the track, its position on the track, and its key.
fn write_record_place<W: Write>(out: &mut W, record: &RecordPlace<'_>) -> io::Result<()> {
    let last = record.id.last().copied().unwrap_or(0);
    write!(
        out,
        "\"cylinder\":{},\"head\":{},\"record\":{last}",
        record.cylinder, record.head
    )?;
    if record.number().is_none() {
        write_member(out, "id", Some(record.id))?;
    }
    write!(out, ",\"nth\":{}", record.nth)?;
    if !record.key.is_empty() {
        write_member(out, "key", Some(record.key))?;
    }
    match record.is_equal {
        Some(is_equal) => write!(out, ",\"equal\":{is_equal}"),
        None => Ok(()),
    }
}

/// Writes where a search found no record: its track, how many records it passed, and the IDs or the keys of that track.
fn write_passed<W: Write>(out: &mut W, passed: &Passed<'_>) -> io::Result<()> {
    let name = if passed.by_key { "keys" } else { "ids" };
    write!(
        out,
        "\"cylinder\":{},\"head\":{},\"passed\":{},\"{name}\":[",
        passed.cylinder, passed.head, passed.passed
    )?;
    let more = write_compared(out, passed)?;
    out.write_all(b"]")?;
    if more > 0 {
        write!(out, ",\"{name}_more\":{more}")?;
    }
    Ok(())
}

/// Writes the first IDs or keys of a track. Returns how many more there are.
fn write_compared<W: Write>(out: &mut W, passed: &Passed<'_>) -> io::Result<usize> {
    let mut comma: &[u8] = b"";
    let mut count: usize = 0;
    for record in passed.disk.records(passed.cylinder, passed.head) {
        let compared = if passed.by_key {
            record.key()
        } else {
            record.id()
        };
        if count < MOST_PASSED {
            out.write_all(comma)?;
            write_hex(out, compared)?;
            comma = b",";
        }
        count = count.saturating_add(1);
    }
    Ok(count.saturating_sub(MOST_PASSED))
}
