//! The line of an event of a unit.

use crate::form::{OrNull, write_member};
use crate::posts::write_end;
use io_images::Extent;
use post_lines::End;
use request_piece::{Issued, Name, Scope};
use std::io;
use std::io::Write;
use unit_book::{Mode, ProcessingMethod};
use unit_history::{EventKind, PostCause, UnitEvent};

/// Writes an event, and first its position in the order of all units, if there is one.
pub(crate) fn write_event<W: Write>(
    out: &mut W,
    at: Option<usize>,
    event: &UnitEvent<'_>,
) -> io::Result<()> {
    out.write_all(b"{")?;
    if let Some(at) = at {
        write!(out, "\"at\":{at},")?;
    }
    write!(out, "\"entry\":{},\"what\":", event.entry)?;
    write_event_kind(out, &event.kind)?;
    out.write_all(b"}\n")
}

/// Writes what happened: its word, and its members.
fn write_event_kind<W: Write>(out: &mut W, kind: &EventKind<'_>) -> io::Result<()> {
    match kind {
        EventKind::Opened {
            dcb,
            method,
            extents,
        } => write_opening(out, *dcb, *method, extents),
        EventKind::Arrived(issued) => write_arrival(out, issued),
        EventKind::Started { name, attempt } => {
            write_named(out, "started", *name)?;
            write!(out, ",\"attempt\":{attempt}")
        }
        EventKind::Ran {
            name,
            commands,
            turns,
        } => {
            write_named(out, "ran", *name)?;
            write!(out, ",\"commands\":{commands},\"turns\":{turns}")
        }
        EventKind::Halted(name) => write_named(out, "halted", *name),
        EventKind::Purged {
            scope,
            mode,
            active,
        } => write_purge(out, *scope, *mode, *active),
        EventKind::Closed { dcb } => write!(out, "\"closed\",\"dcb\":{dcb}"),
        EventKind::Reset { dcb } => write!(out, "\"reset\",\"dcb\":{dcb}"),
        EventKind::Posted {
            name,
            end,
            cause,
            sets_flag,
        } => {
            write_posting(out, *name, end, *cause)?;
            write_flag(out, *sets_flag)
        }
    }
}

/// Writes the word of an event of a request, and its name.
fn write_named<W: Write>(out: &mut W, word: &str, name: Name) -> io::Result<()> {
    let Name { task, seq } = name;
    write!(out, "\"{word}\",\"task\":{task},\"request\":{seq}")
}

fn write_opening<W: Write>(
    out: &mut W,
    dcb: u16,
    method: ProcessingMethod,
    extents: &[Extent],
) -> io::Result<()> {
    let way = match method {
        ProcessingMethod::Input => "input",
        ProcessingMethod::Output => "output",
    };
    write!(
        out,
        "\"opened\",\"dcb\":{dcb},\"way\":\"{way}\",\"extents\":["
    )?;
    let mut comma = "";
    for extent in extents {
        write_extent(out, comma, extent)?;
        comma = ",";
    }
    out.write_all(b"]")
}

/// Writes a comma, if any, and the first and the last track of an extent, each as its cylinder and its head.
fn write_extent<W: Write>(out: &mut W, comma: &str, extent: &Extent) -> io::Result<()> {
    write!(
        out,
        "{comma}{{\"from\":[{},{}],",
        extent.start_cylinder, extent.start_head
    )?;
    write!(
        out,
        "\"to\":[{},{}]}}",
        extent.end_cylinder, extent.end_head
    )
}

fn write_arrival<W: Write>(out: &mut W, issued: &Issued) -> io::Result<()> {
    write_named(out, "arrived", issued.name())?;
    write!(
        out,
        ",\"dcb\":{},\"related\":{}",
        issued.dcb(),
        issued.is_related()
    )?;
    let mut seek = [0; 8];
    issued.seek().write(&mut seek);
    write_member(out, "seek", Some(&seek))?;
    write!(out, ",\"start\":\"{:06X}\"", issued.start().get())
}

fn write_purge<W: Write>(
    out: &mut W,
    scope: Scope,
    mode: Mode,
    active: Option<Name>,
) -> io::Result<()> {
    out.write_all(b"\"purge\",")?;
    match scope {
        Scope::Dcb(dcb) => write!(out, "\"dcb_purged\":{dcb}")?,
        Scope::Task(task) => write!(out, "\"task_purged\":{task}")?,
    }
    let mode = match mode {
        Mode::Quiesce => "quiesce",
        Mode::Halt => "halt",
    };
    write!(out, ",\"mode\":\"{mode}\",\"active\":")?;
    match active {
        Some(Name { task, seq }) => write!(out, "[{task},{seq}]"),
        None => out.write_all(b"null"),
    }
}

fn write_posting<W: Write>(out: &mut W, name: Name, end: &End, cause: PostCause) -> io::Result<()> {
    write_named(out, "posted", name)?;
    write_end(out, end)?;
    match cause.in_words() {
        Some(why) => write!(out, ",\"why\":\"{why}\"")?,
        None => out.write_all(b",\"why\":null")?,
    }
    write!(out, ",\"doomed_by\":{}", OrNull(cause.entry()))
}

/// Says that a post sets the error flag of its DCB, if it does.
fn write_flag<W: Write>(out: &mut W, sets_flag: bool) -> io::Result<()> {
    if sets_flag {
        out.write_all(b",\"sets_flag\":true")?;
    }
    Ok(())
}
