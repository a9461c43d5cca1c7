//! What is printed of the units after each answer, each line a comment of a script: the new entries of their traces, and
//! their states.

use crate::answer::write_name;
use any_device::AnyDevice;
use post_lines::{End, write_post};
use request_piece::{Name, Scope};
use std::alloc::{AllocError, Global};
use std::io::{Result as IoResult, Write};
use unit_book::{DcbState, Entry, Mode, ProcessingMethod, UnitBook};
use unit_world::{ActiveState, active_request};

/// Which of them are printed.
#[derive(Clone, Copy)]
pub struct Views {
    /// The new entries of each trace.
    pub trace: bool,
    /// What waits at each unit, what is active, how many posts are out, and its DCBs.
    pub state: bool,
}

/// What is to be printed, and how many entries of each unit's trace were printed.
#[derive(Drop)]
pub struct View {
    views: Views,
    printed: Vec<usize>,
    /// The lines to print, each with its line feed.
    pub text: Vec<u8>,
}

impl View {
    /// Before the first event of units with these books. Their entries up to now are not printed.
    pub fn new(
        alloc: Global,
        views: Views,
        books: &[UnitBook<AnyDevice>],
    ) -> Result<Self, AllocError> {
        let mut printed = Vec::with_capacity(alloc, books.len())?;
        for book in books {
            printed.push(book.trace().len())?;
        }
        Ok(View {
            views,
            printed,
            text: Vec::new(alloc),
        })
    }

    /// Adds what is to be printed of a unit.
    pub fn add(&mut self, unit: u16, book: &UnitBook<AnyDevice>) -> Result<(), AllocError> {
        if self.views.trace {
            if let Some(printed) = self.printed.get_mut(usize::from(unit)) {
                let written = write_entries(&mut self.text, unit, book.trace(), *printed);
                written.or(Err(AllocError))?;
                *printed = book.trace().len();
            }
        }
        if self.views.state {
            write_state(&mut self.text, unit, book).or(Err(AllocError))?;
        }
        Ok(())
    }
}

/// Writes the entries of a trace after the first `printed`, oldest first.
fn write_entries<W: Write>(
    out: &mut W,
    unit: u16,
    trace: &[Entry],
    printed: usize,
) -> IoResult<()> {
    for entry in trace.iter().skip(printed) {
        write!(out, "# trace {unit}: ")?;
        write_entry(out, unit, entry)?;
        writeln!(out)?;
    }
    Ok(())
}

fn write_entry<W: Write>(out: &mut W, unit: u16, entry: &Entry) -> IoResult<()> {
    match entry {
        Entry::Opened(dcb, method, _) => write!(out, "Opened {dcb} {}", method_word(*method)),
        Entry::Arrive(issued) => write_of(out, "Arrive", unit, issued.name()),
        Entry::Start(name) => write_of(out, "Start", unit, *name),
        Entry::Ran(name, commands) => {
            write_of(out, "Ran", unit, *name)?;
            write!(out, " {commands}")
        }
        Entry::Halted(name) => write_of(out, "Halted", unit, *name),
        Entry::Purge(scope, mode) => {
            let mode = mode_word(*mode);
            match scope {
                Scope::Dcb(dcb) => write!(out, "Purge dcb {dcb} {mode}"),
                Scope::Task(task) => write!(out, "Purge task {task} {mode}"),
            }
        }
        Entry::Close(dcb) => write!(out, "Close {dcb}"),
        Entry::Reset(dcb) => write!(out, "Reset {dcb}"),
        Entry::Post(name, csw, sense, code) => {
            let end = End {
                code: *code,
                csw: *csw,
                sense: *sense,
            };
            let (task, number) = (usize::from(name.task), name.seq as usize);
            write_post(out, task, usize::from(unit), number, &end, &[])
        }
    }
}

/// Writes a word and the name of a request.
fn write_of<W: Write>(out: &mut W, word: &str, unit: u16, name: Name) -> IoResult<()> {
    write!(out, "{word}")?;
    write_name(out, unit, name)
}

fn method_word(method: ProcessingMethod) -> &'static str {
    match method {
        ProcessingMethod::Input => "in",
        ProcessingMethod::Output => "out",
    }
}

/// Writes the state of a unit: what waits in order of arrival, what is active, how many posts are out, and each DCB.
fn write_state<W: Write>(out: &mut W, unit: u16, book: &UnitBook<AnyDevice>) -> IoResult<()> {
    write!(out, "# state {unit}: waiting")?;
    write_waiting(out, unit, book)?;
    write_active(out, unit, book)?;
    write!(out, "; out {}", book.out_len())?;
    write_dcbs(out, book)?;
    writeln!(out)
}

fn write_waiting<W: Write>(out: &mut W, unit: u16, book: &UnitBook<AnyDevice>) -> IoResult<()> {
    let count = book.waiting_len();
    if count == 0 {
        return write!(out, " none");
    }
    for at in 0..count {
        let comma = if at > 0 { "," } else { "" };
        if let Some(name) = book.waiting_name(at) {
            write_of(out, comma, unit, name)?;
        }
    }
    Ok(())
}

fn write_active<W: Write>(out: &mut W, unit: u16, book: &UnitBook<AnyDevice>) -> IoResult<()> {
    let Some((name, state)) = active_request(book) else {
        return write!(out, "; active none");
    };
    write_of(out, "; active", unit, name)?;
    let state = match state {
        ActiveState::AwaitsRestart => "awaits its restart",
        ActiveState::Pending => "status pending",
        ActiveState::Running => "running",
    };
    write!(out, " {state}")
}

fn write_dcbs<W: Write>(out: &mut W, book: &UnitBook<AnyDevice>) -> IoResult<()> {
    for dcb in 1..=u16::MAX {
        let word = match book.dcb_state(dcb) {
            DcbState::Unknown => return Ok(()),
            DcbState::Open => "open",
            DcbState::Closing => "closing",
            DcbState::Closed => "closed",
        };
        write!(out, "; DCB {dcb} {word}")?;
        if book.dcb_flag(dcb) {
            write!(out, " in error")?;
        }
    }
    Ok(())
}

/// The word of a mode of a purge.
fn mode_word(mode: Mode) -> &'static str {
    match mode {
        Mode::Halt => "halt",
        Mode::Quiesce => "quiesce",
    }
}
