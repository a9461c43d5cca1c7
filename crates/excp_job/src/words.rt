//! The words of the command line, and what is printed if they cannot be used.

use clap::Error;
use clap::error::ErrorKind;
use job_script::JobError;
use run_options::{Counts, parse};
use std::alloc::AllocError;
use std::{env, io};

/// The exit status of a fault of the command line.
const USAGE: u8 = 2;

/// Reads the command line, before any byte of the script is read; or prints why not, or the help that is asked for, and
/// returns the exit status.
pub fn read(rt: &HostRuntime) -> Result<Counts, u8> {
    let arguments = match env::args(rt) {
        Ok(arguments) => arguments,
        Err(error) if error.kind() == io::ErrorKind::OutOfMemory => {
            return Err(ended_by(rt, JobError::NoMemory));
        }
        Err(_) => {
            let _ = eprintln!(rt; "excp_job: a word of the command line is not UTF-8");
            return Err(USAGE);
        }
    };
    let words: Result<Vec<String>, AllocError> = arguments.collect(rt.alloc());
    match words {
        Ok(words) => parse(rt.alloc(), words.as_slice()).map_err(|error| told(rt, error)),
        Err(_) => Err(ended_by(rt, JobError::NoMemory)),
    }
}

/// Prints what `clap` says, and returns the exit status. Help goes to standard error, with the status of a fault (profile).
fn told(rt: &HostRuntime, error: Error) -> u8 {
    match error.kind() {
        ErrorKind::OutOfMemory => ended_by(rt, JobError::NoMemory),
        ErrorKind::DisplayVersion => match print!(rt; "{error}") {
            Ok(()) => 0,
            Err(_) => ended_by(rt, JobError::NotWritten),
        },
        _ => {
            let _ = eprint!(rt; "{error}");
            USAGE
        }
    }
}

/// Prints why the program ends, and returns the exit status.
pub fn ended_by(rt: &HostRuntime, fault: JobError) -> u8 {
    let _ = eprintln!(rt; "excp_job: {fault}");
    fault.status()
}
