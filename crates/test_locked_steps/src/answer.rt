//! The answers of events, as text.

use crate::step_answer::{Issuing, StepAnswer};
use crate::task_records::TaskRecords;
use post_lines::write_posted;
use request_piece::{Name, Posted};
use std::alloc::AllocError;
use std::io::{Result as IoResult, Write};
use unit_book::{Closing, Delivery, Intake, Interruption, OpenError, Purging, Running, Starting};

/// Writes the answer of a step. `unit` is the unit of its request. A post is noted in the past.
pub fn write_answer<W: Write>(
    out: &mut W,
    unit: u16,
    answer: &StepAnswer,
    past: &TaskRecords,
) -> IoResult<()> {
    if let StepAnswer::Collected(Some(posted)) = answer {
        return write_posted(out, posted, past.shown(posted));
    }
    write!(out, "{}", word_of(answer))?;
    if let Some(name) = name_of(answer) {
        write_name(out, unit, name)?;
    }
    match answer {
        StepAnswer::Interrupted(Interruption::Ended(_, code)) => {
            let byte = code.byte();
            write!(out, " {byte:02X}")
        }
        StepAnswer::Ran(Running::Ran { commands, pending }) => {
            let state = if *pending { " pending" } else { "" };
            write!(out, " {commands}{state}")
        }
        StepAnswer::Opened(dcb) => write!(out, " {dcb}"),
        _ => Ok(()),
    }
}

/// Writes the name of a request: the numbers of its task and unit, and its own.
pub fn write_name<W: Write>(out: &mut W, unit: u16, name: Name) -> IoResult<()> {
    let Name { task, seq } = name;
    write!(out, " {task} {unit} {seq}")
}

/// The first word of an answer.
fn word_of(answer: &StepAnswer) -> &'static str {
    match answer {
        StepAnswer::None | StepAnswer::Passed => "",
        StepAnswer::Pushed(Issuing::Accepted(_)) => "Accepted",
        StepAnswer::Pushed(Issuing::NoNumber) => "NoNumber",
        StepAnswer::Pushed(Issuing::Full) | StepAnswer::Delivered(Delivery::Full(_)) => "Full",
        StepAnswer::Taken(Intake::Held) => "Held",
        StepAnswer::Taken(Intake::Took(_)) => "Took",
        StepAnswer::Started(Starting::Busy) => "Busy",
        StepAnswer::Started(Starting::Idle) => "Idle",
        StepAnswer::Started(Starting::Started(_)) => "Started",
        StepAnswer::Started(Starting::Violated(_)) => "Violated",
        StepAnswer::Ran(Running::Ran { .. }) => "Ran",
        StepAnswer::Interrupted(Interruption::Again(_)) => "Again",
        StepAnswer::Interrupted(Interruption::Ended(..)) => "Ended",
        StepAnswer::Delivered(Delivery::Delivered(_)) => "Delivered",
        StepAnswer::Settled => "Settled",
        StepAnswer::Purged(Purging::Active(_)) => "Active",
        StepAnswer::Closed(Closing::Closed) => "Closed",
        StepAnswer::Closed(Closing::Closing(_)) => "Closing",
        StepAnswer::Reset => "Reset",
        StepAnswer::NoSuchDcb | StepAnswer::NotOpen => "NoSuchDcb",
        StepAnswer::Opened(_) => "Opened",
        StepAnswer::NotOpened(OpenError::BadExtent) => "BadExtent",
        StepAnswer::NotOpened(_) => "TooManyDcbs",
        _ => "Quiet",
    }
}

/// The name of the request that an answer is of, if it is of one.
fn name_of(answer: &StepAnswer) -> Option<Name> {
    match answer {
        StepAnswer::Pushed(Issuing::Accepted(name))
        | StepAnswer::Taken(Intake::Took(name))
        | StepAnswer::Started(Starting::Started(name) | Starting::Violated(name))
        | StepAnswer::Interrupted(Interruption::Again(name) | Interruption::Ended(name, _))
        | StepAnswer::Delivered(Delivery::Delivered(name) | Delivery::Full(name))
        | StepAnswer::Purged(Purging::Active(name))
        | StepAnswer::Closed(Closing::Closing(name)) => Some(*name),
        _ => None,
    }
}

/// Adds the answer of `finish` to a text: how many posts the tasks had not collected. Each of these has a line of its own. They
/// are noted in the past.
pub fn write_end(
    text: &mut Vec<u8>,
    posts: &[Posted],
    past: &TaskRecords,
) -> Result<(), AllocError> {
    write!(text, "Finished {}", posts.len()).or(Err(AllocError))?;
    for posted in posts {
        text.push(b'\n')?;
        write_posted(text, posted, past.shown(posted)).or(Err(AllocError))?;
    }
    Ok(())
}
