//! The lines of the posts of a run, and of what its tasks did.

use crate::form::write_member;
use post_lines::End;
use run_record::{EndedRequest, TaskEvent, TaskRecord};
use std::io;
use std::io::Write;

/// Writes the posts, in order of tasks, units and numbers.
pub(crate) fn write_posts<W: Write>(out: &mut W, tasks: &[TaskRecord]) -> io::Result<()> {
    for (task, record) in tasks.iter().enumerate() {
        for unit in 0..record.slots.units.len() {
            write_posts_at(out, task, record, unit)?;
        }
    }
    Ok(())
}

/// Writes the posts of a task's requests to a unit.
fn write_posts_at<W: Write>(
    out: &mut W,
    task: usize,
    record: &TaskRecord,
    unit: usize,
) -> io::Result<()> {
    for number in 1..=record.requests_to(unit) {
        if let Some(ended) = record.ended(unit, number) {
            write!(
                out,
                "{{\"what\":\"post\",\"task\":{task},\"unit\":{unit},\"request\":{number}"
            )?;
            write_ended(out, &ended)?;
        }
    }
    Ok(())
}

/// Writes how a request ended, up to the end of its line.
fn write_ended<W: Write>(out: &mut W, ended: &EndedRequest<'_>) -> io::Result<()> {
    write_end(out, &ended.end)?;
    write_member(out, "shown", Some(ended.shown))?;
    write!(out, ",\"iob_at\":\"{:06X}\"", ended.iob.show())?;
    write_member(out, "iob", Some(ended.iob.shown()))?;
    out.write_all(b"}\n")
}

/// Writes the members of a completion code, a CSW and sense bytes, each after a comma.
pub(crate) fn write_end<W: Write>(out: &mut W, end: &End) -> io::Result<()> {
    let mut csw = [0; 8];
    end.csw.write(&mut csw);
    write_member(out, "code", Some(&[end.code.byte()]))?;
    write_member(out, "address", Some(&csw[1..4]))?;
    write_member(out, "status", Some(&csw[4..6]))?;
    write_member(out, "residual", Some(&csw[6..]))?;
    write!(out, ",\"sense\":\"{:04X}\"", end.sense)
}

/// Writes the events of each task, in the order of the task.
pub(crate) fn write_tasks<W: Write>(out: &mut W, tasks: &[TaskRecord]) -> io::Result<()> {
    for (task, record) in tasks.iter().enumerate() {
        for event in record.notes.events() {
            write_task_event(out, task, event)?;
        }
    }
    Ok(())
}

fn write_task_event<W: Write>(out: &mut W, task: usize, event: &TaskEvent) -> io::Result<()> {
    let (what, unit, of, number) = match event {
        TaskEvent::Waited => return writeln!(out, "{{\"what\":\"waited\",\"task\":{task}}}"),
        TaskEvent::Issued { unit, number } => ("issued", unit, "request", *number as usize),
        TaskEvent::Collected { unit, number } => ("collected", unit, "request", *number as usize),
        TaskEvent::Controlled { unit, entry } => ("controlled", unit, "entry", *entry),
    };
    writeln!(
        out,
        "{{\"what\":\"{what}\",\"task\":{task},\"unit\":{unit},\"{of}\":{number}}}"
    )
}
