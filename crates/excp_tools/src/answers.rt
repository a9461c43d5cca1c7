//! What a search found, as lines of JSON (RFC 8259). The last line of an answer has the member `last`.
//!
//!     {"ended":"whole","states":12,"bytes":34567}
//!     {"outcomes":[[0,"7F001048000000000C00",9],[1,"48000000000000000000",4]]}
//!     {"media":[[0,12],[3,9]]}
//!     {"whole":[0,2],"media":[3]}
//!     {"last":true}
//!
//! `ended` says why the search ended: whole, states, memory or watch. Then each request has a line. Of each of its outcomes it has the
//! number, the bytes of the post, and how many steps lead to it, about. The bytes are the completion code, the CSW, the sense bytes
//! and the bytes shown. If media are sought, each unit has a line: of each medium that a whole run leaves the number, and how many
//! steps lead to it. Each whole output has a line with the number of an outcome for each request, and of a medium for each unit, if
//! they are sought.
//!
//!     {"steps":["task 0","take 0","start 0","run 0 64","interrupt 0","deliver 0","collect 0"],"last":true}
//!
//! `task` is the next command of a task. The steps are null if there are none.

use book_states::{NumberedJob, Step};
use outcome_search::{Outcome, Search, SearchEnd};
use post_lines::write_bytes;
use std::io::{Result, Write};

/// Writes what a search of a job found.
pub fn write_found<W: Write>(out: &mut W, search: &Search<'_>, job: &NumberedJob) -> Result<()> {
    let (requests, units) = (job.requests.len(), job.units());
    let ended = match search.ended() {
        SearchEnd::Whole => "whole",
        SearchEnd::States => "states",
        SearchEnd::Memory => "memory",
        SearchEnd::Watch => "watch",
    };
    let (states, bytes) = (search.states(), search.bytes());
    writeln!(
        out,
        "{{\"ended\":\"{ended}\",\"states\":{states},\"bytes\":{bytes}}}"
    )?;
    for (request, _) in (0..=u16::MAX).zip(0..requests) {
        write_outcomes(out, search, search.outcomes(request))?;
    }
    if search.sought().media {
        for (unit, _) in (0..=u16::MAX).zip(0..units) {
            write_media(out, search.media(unit))?;
        }
    }
    for place in 0..search.wholes() {
        let (posts, media) = parted(search.whole(place), requests);
        write!(out, "{{\"whole\":")?;
        write_numbers(out, posts)?;
        if search.sought().media {
            write!(out, ",\"media\":")?;
            write_numbers(out, media)?;
        }
        writeln!(out, "}}")?;
    }
    writeln!(out, "{{\"last\":true}}")
}

/// Writes the outcomes of a request.
fn write_outcomes<W: Write>(out: &mut W, search: &Search<'_>, outcomes: &[Outcome]) -> Result<()> {
    write!(out, "{{\"outcomes\":[")?;
    let mut before = "";
    for outcome in outcomes {
        write!(out, "{before}[{},\"", outcome.key)?;
        write_bytes(out, search.key(outcome.key))?;
        write!(out, "\",{}]", outcome.length())?;
        before = ",";
    }
    writeln!(out, "]}}")
}

/// Writes the media of a unit.
fn write_media<W: Write>(out: &mut W, media: &[Outcome]) -> Result<()> {
    write!(out, "{{\"media\":[")?;
    let mut before = "";
    for medium in media {
        write!(out, "{before}[{},{}]", medium.key, medium.length())?;
        before = ",";
    }
    writeln!(out, "]}}")
}

/// The first numbers of a whole output, and the others.
fn parted(whole: &[u32], first: usize) -> (&[u32], &[u32]) {
    whole.split_at(first.min(whole.len()))
}

/// Writes numbers.
fn write_numbers<W: Write>(out: &mut W, numbers: &[u32]) -> Result<()> {
    write!(out, "[")?;
    let mut before = "";
    for number in numbers {
        write!(out, "{before}{number}")?;
        before = ",";
    }
    write!(out, "]")
}

/// Writes that a search found nothing, because memory ran out.
pub fn write_lack<W: Write>(out: &mut W) -> Result<()> {
    writeln!(out, "{{\"ended\":\"memory\",\"states\":0,\"bytes\":0}}")?;
    writeln!(out, "{{\"last\":true}}")
}

/// Writes steps, if there are any.
pub fn write_steps<W: Write>(out: &mut W, steps: Option<&[Step]>) -> Result<()> {
    let Some(steps) = steps else {
        return writeln!(out, "{{\"steps\":null,\"last\":true}}");
    };
    write!(out, "{{\"steps\":[")?;
    let mut before = "";
    for step in steps {
        write!(out, "{before}\"")?;
        write_step(out, *step)?;
        write!(out, "\"")?;
        before = ",";
    }
    writeln!(out, "],\"last\":true}}")
}

/// Writes a step of a search.
fn write_step<W: Write>(out: &mut W, step: Step) -> Result<()> {
    match step {
        Step::Push { task, .. }
        | Step::Purge { task, .. }
        | Step::Close { task, .. }
        | Step::Reset { task, .. }
        | Step::Pass(task) => write!(out, "task {task}"),
        Step::Take(unit) => write!(out, "take {unit}"),
        Step::Start(unit) => write!(out, "start {unit}"),
        Step::Run { unit, most } => write!(out, "run {unit} {most}"),
        Step::Interrupt(unit) => write!(out, "interrupt {unit}"),
        Step::Deliver(unit) => write!(out, "deliver {unit}"),
        Step::Collect(task) => write!(out, "collect {task}"),
        // no search makes these
        Step::Settle(_) | Step::Open { .. } | Step::Finish => Ok(()),
    }
}
