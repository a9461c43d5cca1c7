//! `excp_tools` has what the words `report` and `outcomes` run. The package python/excp, whose command is `excp`, has judged all that
//! its user types. It hands over plain words ([`words`]), a script in plain lines, and the files of media, which it has opened.
//! `report` runs the script of standard input on threads, and prints the record of the run (docs/REPORT.md). `outcomes` searches for
//! the posts over all orders of steps, and answers what the package asks ([`outcomes`]).
//!
//! What is wrong with a script, an image, or a unit that has neither, the package says: the statuses from [`REFUSED`] on are for
//! it.
//!
//! Tests: `tests/run command_line`, and every group that runs the program.
#![tactic(auto)]

mod answers;
mod file_name;
mod images;
mod noted;
mod outcomes;
mod pace;
mod progress;
mod record;
mod recorded_run;
mod report;
mod saver;
mod screen;
mod script;
mod unit_records;
mod words;

use images::load_all;
use job_script::JobError;
use outcomes::outcomes;
use report::report;
use std::cell::Cell;
use std::process::ExitCode;
use std::sync::Wait;
use std::thread::Threads;
use words::{Word, Words};

/// The exit status of a file that is not written, after its text was printed.
const REJECTED: u8 = 1;

/// A line, a medium, a DCB or a request of the script is refused. Nothing was printed of it.
const REFUSED: u8 = 7;

/// An image cannot be loaded. Nothing was printed, and nothing of the script was read.
const NO_IMAGE: u8 = 8;

/// A unit of an image, or of a medium to save, is not declared; or no model of disks is as the unit that is to be saved. Nothing
/// was printed of it.
const UNFIT: u8 = 9;

/// Nothing reads the output any more. No medium is saved.
const READER_GONE: u8 = 11;

fn main(rt: HostRuntime) -> ExitCode {
    let status = match words::read(&rt) {
        Ok(words) => carried_out(&rt, &rt, &words),
        Err(status) => status,
    };
    ExitCode::from(status)
}

/// Carries out what is asked for, and returns the exit status.
fn carried_out<R: Threads + Wait + Sync>(rt: &HostRuntime, threads: &R, words: &Words) -> u8 {
    let images = match load_all(rt, &words.loads) {
        Ok(images) => images,
        Err(status) => return status,
    };
    let is_broken = Cell::new(false);
    let done = match words.word {
        Word::Report => report(rt, threads, words, images, &is_broken),
        Word::Outcomes => outcomes(rt, words, images, &is_broken),
    };
    match done {
        Ok(status) => status,
        Err(JobError::NotWritten) if is_broken.get() => READER_GONE,
        Err(fault) => ended_by(rt, fault),
    }
}

/// The exit status of a fault, after its text was printed; of one of the script, the package prints more.
fn ended_by(rt: &HostRuntime, fault: JobError) -> u8 {
    if let JobError::Line { .. } = fault {
        return REFUSED;
    }
    let _ = eprintln!(rt; "excp: {fault}");
    fault.status()
}
