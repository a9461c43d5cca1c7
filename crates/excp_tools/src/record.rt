//! The record of a run, printed.

use crate::screen::Screen;
use record_lines::{RecordDetail, write_run};
use run_record::Run;
use std::cell::Cell;
use std::io::{BufWriter, Write};
use unit_history::HistoryError;

/// Prints a part of the record of a run. `is_broken` is set once nothing reads it any more.
pub fn print_record(
    rt: &HostRuntime,
    run: &Run<'_>,
    part: RecordDetail,
    is_broken: &Cell<bool>,
) -> Result<(), HistoryError> {
    let screen = Screen::new(rt.stdout(), is_broken);
    let Ok(mut out) = BufWriter::new(rt.alloc(), screen) else {
        return Err(HistoryError::NoMemory);
    };
    write_run(&mut out, rt.alloc(), run, part)?;
    out.flush().or(Err(HistoryError::NotWritten))
}
